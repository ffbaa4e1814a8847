//! Laws over what the tokens of a text are by the grammar of modules.

ghost use Rattle.hilti_refusals.specs.Refusals.{NeverBoth, ReadsText, RefusedOnce};

/// No tokens both are a module and have a first refusal.
pub fn never_both()
    ensures { NeverBoth }
{}

/// The first refusal of tokens is one: its reason and its place.
pub fn refused_once()
    ensures { RefusedOnce }
{}

/// What reading the pieces of a text as a module comes to: the tree that its tokens derive and no
/// other, or their first refusal.
pub fn reads_text()
    ensures { ReadsText }
{}
