//! Where values are, and what holds them.
ghost use Rattle.std.specs.Prelude.{◌≡◌, ◌++◌, ◌∷◌, [], ℕ, Some, None, IfOk, OnOk, IfSome, IsSome};
ghost use Rattle.std.specs.Prelude.{slice_get};
ghost use Rattle.hilti_heap.specs.Held.{held, all_held};
ghost use Rattle.hilti_heap.specs.Kept.{Covers, AreKept, Holds, Releases};
ghost use Rattle.hilti_stack.specs.Frames.{with_slots, with_made};
ghost use Rattle.hilti_effects.specs.Operands as operands;
ghost use Rattle.hilti_effects.specs.Asks.{IsThere};
ghost use Rattle.hilti_acting.specs.Owned.{FitsWith, Fewer, variable_at};

use crate::memory::Memory;
use hilti_base::NoMemory;
use hilti_heap::Heap;
use hilti_parts::Variable;
use hilti_rows::Source;
use hilti_stack::Stack;
use hilti_values::{Value, share};
use std::alloc::Global;
use std::mem;

/// The value at a source.
#[inline]
pub fn value_at<'a>(stack: &'a Stack, globals: &'a [Value], source: &'a Source) -> &'a Value
    requires { IsSome (operands.found stack.now.slots globals.now source.now) }
    ensures { operands.value_at stack.now.slots globals.now source.now ≡ result.now }
{
    match source {
        Source::Slot { n } => stack.slot(*n),
        Source::Global { n } => &globals[*n as usize],
        Source::Constant { value } => value,
    }
}

/// An equal value, which is held besides.
pub fn hold_share(alloc: Global, heap: &mut Heap, value: &Value) -> Result<Value, NoMemory>
    requires { AreKept heap.old (λ s. held s value.now) }
    ensures is { IfOk result (λ shared. shared ≡ value.now) }
    ensures held { OnOk result (Holds heap.old heap.new (λ s. held s value.now)) }
{
    let shared = share(alloc, value)?;
    heap.hold_value(&shared)?;
    Ok(shared)
}

/// Gives a variable another value, and gives the old one. No count changes.
fn exchange(stack: &mut Stack, globals: &mut Vec<Value>, target: Variable, value: Value) -> Value
    requires { IsThere stack.old.slots globals.old.items target }
    ensures stack { stack.new ≡
        with_slots stack.old (operands.slots_with target value stack.old.slots) }
    ensures globals { globals.new.items ≡ operands.globals_with target value globals.old.items }
    ensures before { variable_at stack.old.slots globals.old.items target ≡ Some result }
{
    match target {
        Variable::Slot { n } => stack.set(n, value),
        Variable::Global { n } => mem::replace(&mut globals[n as usize], value),
    }
}

/// Gives a variable a value that was on its way, and lets the old one go.
pub fn put(stack: &mut Stack, memory: &mut Memory, target: Variable, value: Value)
    requires there { IsThere stack.old.slots memory.old.globals.items target }
    requires fits { FitsWith memory.old.heap stack.old memory.old.globals.items (Some value) }
    ensures stack { stack.new ≡
        with_slots stack.old (operands.slots_with target value stack.old.slots) }
    ensures globals { memory.new.globals.items ≡
        operands.globals_with target value memory.old.globals.items }
    ensures fewer { Fewer memory.old.heap memory.new.heap }
    ensures fits { FitsWith memory.new.heap stack.new memory.new.globals.items None }
{
    let old = exchange(stack, &mut memory.globals, target, value);
    memory.heap.release_value(&old);
}

/// A result goes to its target; without one it is let go.
pub fn receive(
    stack: &mut Stack,
    memory: &mut Memory,
    target: Option<Variable>,
    value: Option<Value>,
)
    requires there { IfSome target (IsThere stack.old.slots memory.old.globals.items) }
    requires fits { FitsWith memory.old.heap stack.old memory.old.globals.items value }
    ensures stack { stack.new ≡
        with_slots stack.old (operands.slots_taking target value stack.old.slots) }
    ensures globals { memory.new.globals.items ≡
        operands.globals_taking target value memory.old.globals.items }
    ensures fewer { Fewer memory.old.heap memory.new.heap }
    ensures fits { FitsWith memory.new.heap stack.new memory.new.globals.items None }
{
    match (target, value) {
        (Some(target), Some(value)) => put(stack, memory, target, value),
        (None, Some(value)) => memory.heap.release_value(&value),
        _ => {}
    }
}
