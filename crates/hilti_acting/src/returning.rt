//! What follows where the top ended with a result: its slots are let go, and the nearest caller takes the result.
ghost use Rattle.std.specs.Prelude.{◌≡◌, [], IfOk, IfErr};
ghost use Rattle.hilti_parts.specs.declared.parts.Parts.{Parts};
ghost use Rattle.hilti_heap.specs.Held.{all_held};
ghost use Rattle.hilti_heap.specs.Kept.{Covers, Releases};
ghost use Rattle.hilti_effects.specs.declared.ending.Ending.TheVariants as endings;
ghost use Rattle.hilti_acting.specs.Owned.{FitsWith};
ghost use Rattle.hilti_acting.specs.Returns.{CallerTakes, Resumes, IsOver};

use crate::memory::Memory;
use crate::places::receive;
use hilti_heap::Heap;
use hilti_parts::Variable;
use hilti_stack::{Head, Position, Stack};
use hilti_values::Value;

/// The slots of the top are let go.
pub fn let_go(stack: &Stack, heap: &mut Heap)
    requires { Covers heap.old (λ s. all_held s stack.now.slots) }
    ensures { Releases heap.old heap.new (λ s. all_held s stack.now.slots) }
{
    let slots = stack.slots();
    for value in slots {
        heap.release_value(value);
    }
}

/// The top ended with a result. Its slots are let go, and the nearest caller takes the result and is the top: its place
/// comes back. Where none waits the result comes back, which is still held.
pub fn returned(
    stack: &mut Stack,
    memory: &mut Memory,
    target: Option<Variable>,
    value: Option<Value>,
) -> Result<Position, Option<Value>>
    requires none_made { stack.old.made ≡ [] }
    requires fits { FitsWith memory.old.heap stack.old memory.old.globals.items value }
    requires takes { CallerTakes memory.old.globals.items target stack.old }
    ensures on { IfOk result (λ p. (parts : Parts) →
        Resumes parts (endings.Returned target value) stack.old memory.old p stack.new memory.new) }
    ensures over { IfErr result (λ back.
        (back ≡ value) × IsOver stack.old value memory.old memory.new) }
{
    let_go(stack, &mut memory.heap);
    match stack.leave() {
        Some(Head::Function(p)) => {
            receive(stack, memory, target, value);
            Ok(p)
        }
        Some(_) => unreachable!(),
        None => Err(value),
    }
}
