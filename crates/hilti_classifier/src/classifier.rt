ghost use Rattle.std.specs.Prelude.{◌≡◌, ◌↔◌, ◌≤◌, ℕ, List, [], ◌∷◌, ◌++◌, length, slice_get, true, false, IsTrue, IsFalse, Ok, OnOk, OnErr};
ghost use Rattle.std.specs.List.{All};
ghost use Rattle.std.specs.Option.{option_copied, option_map};
ghost use Rattle.hilti_classifier.specs.Kept.{IsBest, IsBetter};
ghost use Rattle.hilti_classifier.specs.Matches.{IsFirstMatch, Matches, NothingMatches};
ghost use Rattle.hilti_classifier.specs.RuleSet.{AreRules, HasShortNet, HasShortNets};

use crate::want::{Field, Fields, Want, Wants};
use hilti_base::NoMemory;
use std::alloc::Global;
use std::marker::Model;

/// What a rule asks of each field of a query, its priority, and the value that it stands for.
#[derive(Debug, Drop)]
pub struct Rule<K, V> {
    pub wants: Wants<K>,
    pub priority: u64,
    pub value: V,
}

/// Rules in order of adding, and whether they are compiled: before that rules are added, and after it queries are
/// answered. It takes its memory from the allocator that it was made with.
#[derive(Debug, Drop)]
pub struct Classifier<K: Eq, V> {
    rules: Vec<Rule<K, V>>,
    compiled: bool,
}

impl<K: Eq, V> Model for Classifier<K, V> {
    ghost use Rattle.hilti_classifier.specs.RuleSet.{AreRules, RuleSet};

    ghost Value = { RuleSet K V };

    ghost view = { λ classifier.
        record { rules = classifier.rules.items; compiled = classifier.compiled } };

    ghost invariant = { λ classifier. AreRules classifier.rules.items };
}

/// What became of a rule that was to be added.
#[derive(Clone, Copy, Debug, PartialEq, Eq)]
pub enum Added {
    Ok,
    /// The classifier is compiled, and takes no rule any more.
    Compiled,
}

/// The answer to a query.
#[derive(Clone, Copy, Debug, PartialEq, Eq)]
pub enum Got {
    /// The place of the rule, counted from 0 in order of adding.
    At(usize),
    /// No rule matches.
    None,
    /// The classifier isn't compiled yet.
    NotCompiled,
}

impl<K: Eq, V> Classifier<K, V> {
    /// A classifier of no rules, not compiled. It takes no memory yet.
    pub fn new(alloc: Global) -> Classifier<K, V>
        ensures rules { result.rules ≡ [] }
        ensures compiled { result.compiled ≡ false }
    {
        Classifier {
            rules: Vec::new(alloc),
            compiled: false,
        }
    }

    /// How many rules there are. They are alike: each asks something of as many fields, 1 to 8, and no net in them is
    /// longer than an address.
    pub fn len(&self) -> usize
        ensures len { result ≡ length self.now.rules }
        ensures alike { AreRules self.now.rules }
    {
        self.rules.len()
    }

    /// The value of the rule at a place, counted from 0 in order of adding; `None` exactly past the rules.
    pub fn value(&self, at: usize) -> Option<&V>
        ensures { option_copied result
            ≡ option_map (λ rule. rule.value) (slice_get self.now.rules at) }
    {
        match self.rules.get(at) {
            Some(rule) => Some(&rule.value),
            None => None,
        }
    }

    /// Compiles the rules, which stay. A second time nothing changes. Without memory nothing changes.
    pub fn compile(&mut self) -> Result<(), NoMemory>
        ensures ok { OnOk result (self.new.compiled ≡ true) }
        ensures rules { self.new.rules ≡ self.old.rules }
        ensures again { IsTrue self.old.compiled → self.new ≡ self.old }
        ensures err { OnErr result (self.new ≡ self.old) }
    {
        self.compiled = true;
        Ok(())
    }

    /// The place of the first added of the matching rules of the greatest priority. It looks at every rule, and takes no
    /// memory.
    pub fn get(&self, query: &Fields<K>) -> Got
        requires { All (λ rule. length rule.wants ≡ length query.now) self.now.rules }
        ensures not_compiled { (result ≡ Got.NotCompiled) ↔ IsFalse self.now.compiled }
        ensures none { (result ≡ Got.None)
            ↔ (IsTrue self.now.compiled × NothingMatches K.eq self.now.rules query.now) }
        ensures at { (at : ℕ) → (result ≡ Got.At at)
            ↔ (IsTrue self.now.compiled × IsFirstMatch K.eq self.now.rules query.now at) }
    {
        if !self.compiled {
            return Got::NotCompiled;
        }
        match first_match(&self.rules, query.as_slice()) {
            Some(best) => Got::At(best.at),
            None => Got::None,
        }
    }
}

impl<K: Eq + Drop, V: Drop> Classifier<K, V> {
    /// Adds a rule behind the others. Where the classifier is compiled or memory is wanting, nothing changes, and the
    /// rule is dropped.
    pub fn add(&mut self, wants: Wants<K>, priority: u64, value: V) -> Result<Added, NoMemory>
        requires some { 1 ≤ length wants }
        requires few { length wants ≤ 8 }
        requires alike { All (λ rule. length rule.wants ≡ length wants) self.old.rules }
        requires nets { All HasShortNet wants }
        ensures compiled { (result ≡ Ok Added.Compiled) ↔ IsTrue self.old.compiled }
        ensures kept { self.new.compiled ≡ self.old.compiled }
        ensures added { result ≡ Ok Added.Ok → self.new.rules
            ≡ self.old.rules ++ record { wants = wants; priority = priority; value = value } ∷ [] }
        ensures refused { result ≡ Ok Added.Compiled → self.new.rules ≡ self.old.rules }
        ensures err { OnErr result (self.new.rules ≡ self.old.rules) }
    {
        if self.compiled {
            return Ok(Added::Compiled);
        }
        self.rules.push(Rule {
            wants,
            priority,
            value,
        })?;
        Ok(Added::Ok)
    }
}

impl<K: Eq, V> Rule<K, V> {
    /// Whether each field fits what the rule asks of it.
    fn matches(&self, query: &[Field<K>]) -> bool
        requires nets { HasShortNets self.now }
        requires alike { length self.now.wants ≡ length query.now }
        ensures { IsTrue result ↔ Matches K.eq self.now query.now }
    {
        for (want, field) in self.wants.as_slice().iter().zip(query) {
            if !want.fits(field) {
                return false;
            }
        }
        true
    }
}

/// A rule that matches: its place, and its priority.
#[derive(Clone, Copy)]
struct Match {
    at: usize,
    priority: u64,
}

/// The first added of the matching rules of the greatest priority.
fn first_match<K: Eq, V>(rules: &[Rule<K, V>], query: &[Field<K>]) -> Option<Match>
    requires nets { All HasShortNets rules.now }
    requires alike { All (λ rule. length rule.wants ≡ length query.now) rules.now }
    ensures { IsBest K.eq rules.now query.now result }
{
    let mut best: Option<Match> = None;
    for (at, rule) in rules.iter().enumerate() {
        if rule.matches(query) {
            let later = Match {
                at,
                priority: rule.priority,
            };
            best = Some(better(best, later));
        }
    }
    best
}

/// The match of the greater priority, and the earlier one of equal priorities.
fn better(best: Option<Match>, later: Match) -> Match
    ensures { IsBetter best later result }
{
    match best {
        Some(best) if later.priority <= best.priority => best,
        _ => later,
    }
}
