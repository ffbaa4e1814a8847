ghost use Rattle.std.specs.Prelude.{◌≡◌, ℕ, List, [], ◌∷◌, ◌++◌, map, None, IsNone, IfSome, IfOk, IfErr, OnOk, OnErr};
ghost use Rattle.std.specs.Option.{option_map};
ghost use Rattle.std.specs.Ordering.{nat_cmp};
ghost use Rattle.std.specs.FinMap.{contains_key, empty, find, get, insert, len, remove};
ghost use Rattle.hilti_timers.specs.Schedule.{IsDueAt, IsNextDue, IsRenewed, NothingIsDue};
ghost use Rattle.hilti_timers.specs.Kept.{IsLeast, IsAt, pair, stamp};

use hilti_base::{NoMemory, Serial};
use std::alloc::Global;
use std::marker::Model;

/// An entry, and the time for which it waits.
#[derive(Debug, Drop)]
struct Waiting<E> {
    due: u64,
    serial: Serial,
    entry: E,
}

/// Entries with their due times, by their serials, which contracts see as a finite map.
#[derive(Debug, Drop)]
pub struct Manager<E> {
    entries: Vec<Waiting<E>>,
}

impl<E> Model for Manager<E> {
    ghost use Rattle.std.specs.Prelude.{ℕ};
    ghost use Rattle.std.specs.Coded.{coded_ℕ, coded×};
    ghost use Rattle.std.specs.Ordering.{nat_cmp};
    ghost use Rattle.std.specs.FinMap.{FinMap, code};
    ghost use Rattle.hilti_timers.specs.Kept.{AreApart, schedule_of};

    ghost Value = { FinMap nat_cmp (ℕ × E) };

    ghost coded = { code coded_ℕ (coded× coded_ℕ E.code) };

    ghost view = { λ m. schedule_of m.entries.items };

    ghost invariant = { λ m. AreApart m.entries.items };
}

impl<E> Manager<E> {
    /// A manager of no entries. It takes no memory yet.
    pub fn new(alloc: Global) -> Manager<E>
        ensures { result ≡ empty }
    {
        Manager {
            entries: Vec::new(alloc),
        }
    }

    /// How many entries wait.
    pub fn len(&self) -> u64
        ensures { result ≡ len self.now }
    {
        self.entries.len() as u64
    }

    /// Lets an entry wait. Without memory it is handed back, and nothing changes.
    pub fn schedule(&mut self, due: u64, serial: Serial, entry: E) -> Result<(), (E, NoMemory)>
        requires { IsNone (get self.old serial.n) }
        ensures ok { OnOk result (self.new ≡ insert self.old serial.n (due, entry)) }
        ensures err { OnErr result (self.new ≡ self.old) }
        ensures refused { IfErr result (λ refused. refused.0 ≡ entry) }
    {
        if let Err(refused) = self.entries.push(Waiting { due, serial, entry }) {
            return Err((refused.value.entry, NoMemory));
        }
        Ok(())
    }

    /// Takes an entry away; `None` exactly where the serial is absent.
    pub fn cancel(&mut self, serial: Serial) -> Option<E>
        ensures entry { result ≡ option_map (λ waiting. waiting.1) (get self.old serial.n) }
        ensures removed { self.new ≡ remove self.old serial.n }
    {
        let at = place(&self.entries, serial)?;
        let waiting = self.entries.remove(at);
        Some(waiting.entry)
    }

    /// Gives an entry another due time and a fresh serial; false exactly where the serial is absent. Without memory
    /// nothing changes.
    pub fn renew(&mut self, serial: Serial, due: u64, fresh: Serial) -> Result<bool, NoMemory>
        requires { IsNone (get self.old fresh.n) }
        ensures found { IfOk result (λ found. found ≡ contains_key self.old serial.n) }
        ensures renewed { OnOk result (IsRenewed self.old self.new serial.n due fresh.n) }
        ensures err { OnErr result (self.new ≡ self.old) }
    {
        let Some(at) = place(&self.entries, serial) else {
            return Ok(false);
        };
        let waiting = &mut self.entries[at];
        waiting.due = due;
        waiting.serial = fresh;
        Ok(true)
    }

    /// The least due time that is not above a time, with the least serial of that due time; `None` exactly where every
    /// entry is due later. It looks at every entry, and takes no memory.
    pub fn next_due(&self, t: u64) -> Option<(u64, Serial)>
        ensures some { IfSome result (λ next. IsNextDue self.now t next.0 next.1.n) }
        ensures none { IsNone result → NothingIsDue self.now t }
    {
        least(&self.entries, t)
    }
}

/// Where the entry of a serial stands.
fn place<E>(entries: &[Waiting<E>], serial: Serial) -> Option<usize>
    ensures some { IfSome result (λ at. IsAt entries.now at serial.n) }
    ensures none { IsNone result → find nat_cmp serial.n (map pair entries.now) ≡ None }
{
    for (at, waiting) in entries.iter().enumerate() {
        if waiting.serial == serial {
            return Some(at);
        }
    }
    None
}

/// The least due time that is not above a time, with the least serial of that due time.
fn least<E>(entries: &[Waiting<E>], t: u64) -> Option<(u64, Serial)>
    ensures { IsLeast t (map stamp entries.now) result }
{
    let mut best = None;
    for waiting in entries {
        best = earlier(best, waiting, t);
    }
    best
}

/// The earlier of the best so far and an entry that is due.
fn earlier<E>(best: Option<(u64, Serial)>, waiting: &Waiting<E>, t: u64) -> Option<(u64, Serial)>
    ensures { (seen : List (ℕ × ℕ)) → IsLeast t seen best
        → IsLeast t (seen ++ stamp waiting.now ∷ []) result }
{
    if waiting.due > t {
        return best;
    }
    let Some((due, serial)) = best else {
        return Some((waiting.due, waiting.serial));
    };
    if due < waiting.due || due == waiting.due && serial.n <= waiting.serial.n {
        best
    } else {
        Some((waiting.due, waiting.serial))
    }
}
