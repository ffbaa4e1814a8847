//! Laws of the definitions of this crate. They do nothing when they are called: a caller learns what they ensure.

ghost use Rattle.std.specs.Prelude.{List};
ghost use Rattle.hilti_calls.specs.Calls.{Language, IsTheMeaning};
ghost use Rattle.hilti_calls.specs.Stack.{Pending, IsTransparent};
ghost use Rattle.hilti_calls.specs.Parts.{Mark, Part, LosesNothing};

/// The meaning of a call is the one that goes step by step as the language says, each step for one unit of fuel, and
/// that does nothing without fuel: there is no other.
pub fn one_meaning<F, S, R, I>()
    ensures { (l : Language F S R I) → IsTheMeaning l }
{}

/// A frame that calls several callees may wait in two entries of a stack: as a caller of one callee, and above it the
/// run of the callees. What is still to come is what it is with one entry.
pub fn transparent<F, P, S, R, I>()
    ensures { (l : Language F S R I) (p : Pending F P S R) → IsTransparent l p }
{}

/// The parts of a trace, joined again, are that trace.
pub fn loses_nothing<L, C>()
    ensures { (marks : List (Mark L C)) (last : Part L C) → LosesNothing marks last }
{}
