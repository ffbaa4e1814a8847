//! Laws over definitions alone. They take no memory and do nothing: a caller learns what they ensure.

ghost use Rattle.hilti_link.specs.Laws.{FirstItem, FirstModule, NeverBoth, OneMeaning, OneRefusal};

/// No modules both are linked and are refused.
pub fn never_both()
    ensures { NeverBoth }
{}

/// Modules are refused with one code, at one place.
pub fn one_refusal()
    ensures { OneRefusal }
{}

/// Modules that are linked declare one thing.
pub fn one_meaning()
    ensures { OneMeaning }
{}

/// The refusal of some modules, the entries of `Main` aside, is that of one of them; and the refusal of a module's items is
/// that of one of them. None in front of it is refused.
pub fn first_answers()
    ensures modules { FirstModule }
    ensures items { FirstItem }
{}
