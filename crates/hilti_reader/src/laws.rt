//! Laws over definitions alone. They take no memory and do nothing: a caller learns what they
//! ensure.

ghost use Rattle.std.specs.Prelude.{IsTrue};
ghost use Rattle.hilti_grammar.specs.Predictive.{is_predictive};
ghost use Rattle.hilti_reader.specs.Modules.{grammar};
ghost use Rattle.hilti_reader.specs.Promises.{ReadingIsExact, ReadingAllIsExact};

/// One token of lookahead is enough to read modules.
pub fn predictive()
    ensures { IsTrue (is_predictive grammar) }
{}

/// What the readers of rules promise is exact. Where one gives a value, the pieces used derive its
/// tree and no other, and no list of the rule begins with them and the next piece. Where one is
/// refused, some list of the rule begins with the pieces used, and none with them and the next, the
/// end counted as a piece; it is refused as too deep exactly where a `<` is allowed there and
/// stands there with 64 others open.
pub fn exact()
    ensures rules { ReadingIsExact }
    ensures whole { ReadingAllIsExact }
{}
