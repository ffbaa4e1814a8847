//! The arguments of a callee.
ghost use Rattle.std.specs.Prelude.{◌≡◌, ◌++◌, ◌∷◌, [], None, OnOk, IsSome};
ghost use Rattle.std.specs.List.{All};
ghost use Rattle.hilti_stack.specs.Frames.{with_made};
ghost use Rattle.hilti_effects.specs.Asks.{AreThere};
ghost use Rattle.hilti_effects.specs.Operands as operands;
ghost use Rattle.hilti_acting.specs.Owned.{FitsWith, Fewer, IsFree};

use crate::memory::Memory;
use crate::places::{hold_share, value_at};
use hilti_base::NoMemory;
use hilti_rows::Source;
use hilti_stack::Stack;
use std::alloc::Global;

/// Makes a slot of a callee, which holds what the value at a source holds.
fn make(
    alloc: Global,
    stack: &mut Stack,
    memory: &mut Memory,
    source: &Source,
) -> Result<(), NoMemory>
    requires there { IsSome (operands.found stack.old.slots memory.old.globals.items source.now) }
    requires free { IsFree source.now }
    requires fits { FitsWith memory.old.heap stack.old memory.old.globals.items None }
    ensures stack { OnOk result (stack.new ≡ with_made stack.old (stack.old.made
        ++ operands.value_at stack.old.slots memory.old.globals.items source.now ∷ [])) }
    ensures globals { OnOk result (memory.new.globals.items ≡ memory.old.globals.items) }
    ensures fewer { OnOk result (Fewer memory.old.heap memory.new.heap) }
    ensures fits { OnOk result
        (FitsWith memory.new.heap stack.new memory.new.globals.items None) }
{
    let value = value_at(stack, memory.globals.as_slice(), source);
    let shared = hold_share(alloc, &mut memory.heap, value)?;
    stack.make(shared)?;
    Ok(())
}

/// Makes the slots of a callee's arguments, in their order, behind those made so far.
pub fn arguments(
    alloc: Global,
    stack: &mut Stack,
    memory: &mut Memory,
    sources: &[Source],
) -> Result<(), NoMemory>
    requires there { AreThere stack.old.slots memory.old.globals.items sources.now }
    requires free { All IsFree sources.now }
    requires fits { FitsWith memory.old.heap stack.old memory.old.globals.items None }
    ensures stack { OnOk result (stack.new ≡ with_made stack.old (stack.old.made
        ++ operands.values_at stack.old.slots memory.old.globals.items sources.now)) }
    ensures globals { OnOk result (memory.new.globals.items ≡ memory.old.globals.items) }
    ensures fewer { OnOk result (Fewer memory.old.heap memory.new.heap) }
    ensures fits { OnOk result
        (FitsWith memory.new.heap stack.new memory.new.globals.items None) }
{
    for source in sources {
        make(alloc, stack, memory, source)?;
    }
    Ok(())
}
