//! Laws of the definitions that the contracts of this crate cite. They do nothing when they are called.
ghost use Rattle.hilti_types.specs.Depths.{depths, declared_depth};
ghost use Rattle.hilti_types.specs.Sendable.{sendables, declared_sendable};
ghost use Rattle.hilti_types.specs.InTurn.{IsToldOver};

/// What is told of a declared type is told over what is told of those before it alone.
pub fn told_over_those_before()
    ensures sendable { IsToldOver declared_sendable sendables }
    ensures depth { IsToldOver declared_depth depths }
{}
