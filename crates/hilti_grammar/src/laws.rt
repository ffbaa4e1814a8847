//! Laws over definitions alone, for every grammar and every list of tokens. They take no memory and do nothing: a
//! caller learns what they ensure.

ghost use Rattle.std.specs.Prelude.{◌≡◌, false, List, [], ◌∷◌, IsTrue};
ghost use Rattle.hilti_grammar.specs.Grammar.{Grammar, Symbol.Rule};
ghost use Rattle.hilti_grammar.specs.Derives.{Derives};
ghost use Rattle.hilti_grammar.specs.Predictive.{is_predictive};
ghost use Rattle.hilti_grammar.specs.Runs.{Faults};
ghost use Rattle.hilti_grammar.specs.Nested.{Mark.Word, Mark.Open, Mark.Comma, Mark.Close};
ghost use Rattle.hilti_grammar.specs.Nested.{Name.Value, nested, clashing, nested_tree};
ghost use Rattle.hilti_grammar.specs.Exact.{ReadsExactly, ReadsWhole, RefusesFirst, HasOneTree};

/// Reading a rule of a predictive grammar is exact. Where it gives a tree, the tokens used derive that tree and no
/// other, and no list of the rule begins with them and the next token. Where it is refused, some list of the rule
/// begins with the tokens used, and none with them and the next, the end counted as a token; and some kinds were wanted
/// that the error explains, of which each goes on.
pub fn exact<K, R, P, T, E>()
    ensures { (g : Grammar K R P T) (faults : Faults E K T) → ReadsExactly g faults }
{}

/// Reading all tokens by a rule of a predictive grammar: where it gives a tree and no token is left, all tokens derive
/// that tree and no other. Else it is refused before the first token that is left.
pub fn whole<K, R, P, T, E>()
    ensures { (g : Grammar K R P T) (faults : Faults E K T) → ReadsWhole g faults }
{}

/// The place of a refusal is the first one: each front of the tokens before it begins some list of the symbol, no longer
/// front of the tokens does, and all tokens together are no list of it.
pub fn first_refusal<K, R, P, T>()
    ensures { (g : Grammar K R P T) → RefusesFirst g }
{}

/// A predictive grammar gives one list of tokens one tree at most.
pub fn one_tree<K, R, P, T>()
    ensures { (g : Grammar K R P T) → HasOneTree g }
{}

/// An example: nested lists are predictive, and derive `[w, []]` with its tree. Where a value may be followed by a comma
/// or by none, one token doesn't tell whether another value comes.
pub fn nested_lists()
    ensures predictive { IsTrue (is_predictive nested) }
    ensures derives { Derives nested (Rule Value) (Open ∷ Word ∷ Comma ∷ Open ∷ Close ∷ Close
        ∷ []) nested_tree }
    ensures clashing { is_predictive clashing ≡ false }
{}
