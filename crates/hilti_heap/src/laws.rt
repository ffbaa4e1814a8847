//! Laws of the definitions that contracts on heaps cite. They do nothing when they are called.
ghost use Rattle.hilti_heap.specs.Stands.{OnlyHeldAreKept, HeldAreKept};

/// Only held objects are kept: where the counts of a heap fit what others hold, each object that it keeps is held by
/// others, or by an object that it keeps.
pub fn only_held_are_kept()
    ensures { OnlyHeldAreKept }
{}

/// No held object is given back: where the counts fit what others hold, each object that others or kept objects hold is
/// kept.
pub fn held_are_kept()
    ensures { HeldAreKept }
{}
