//! What was computed goes to its target, and what was raised to its handler.
ghost use Rattle.std.specs.Prelude.{◌≡◌, ◌+◌, ◌<◌, ◌≤◌, ◌^◌, [], ℕ, Bool, Some, None, length, slice_set};
ghost use Rattle.std.specs.Prelude.{IfOk, IfSome};
ghost use Rattle.hilti_heap.specs.Held.{held};
ghost use Rattle.hilti_heap.specs.Kept.{AreKept};
ghost use Rattle.hilti_heap.specs.Stands.{Meets};
ghost use Rattle.hilti_heap.specs.Stores.{Store, Answer};
ghost use Rattle.hilti_typing.specs.Exceptions as exceptions;
ghost use Rattle.hilti_stack.specs.Frames.{with_slots};
ghost use Rattle.hilti_values.specs.declared.value.Value.TheVariants as values;
ghost use Rattle.hilti_effects.specs.Raising.{raised, as_action, to_block};
ghost use Rattle.hilti_effects.specs.Acting.{answers, gives, refuses};
ghost use Rattle.hilti_acting.specs.Owned.{owned, FitsWith, Fewer};
ghost use Rattle.hilti_effects.specs.Asks.{IsThere};
ghost use Rattle.hilti_acting.specs.Acts.{Acts, Stands, MayRaise, Fitted, IfGives};
ghost use Rattle.hilti_acting.specs.Acts.{of_state, answer_of};
ghost use Rattle.hilti_acting.specs.declared.memory.Memory as spec;

use crate::did::Did;
use crate::memory::Memory;
use crate::places::{put, receive};
use hilti_base::{NoMemory, Raise};
use hilti_effects::Ending;
use hilti_heap::{Heap, OpFault};
use hilti_parts::{Handler, Variable};
use hilti_program::Program;
use hilti_raise::handler;
use hilti_scalar_ops::Made;
use hilti_stack::{Position, Stack};
use hilti_values::{SharedBytes, Value};

/// The number of a built-in exception, which every program has.
fn raise_number(program: &Program, raise: Raise) -> u32
    ensures is { result ≡ exceptions.raise_number raise }
    ensures there { result < length program.now.exceptions }
{
    let _parts = program.parts();
    match raise {
        Raise::ValueError => 1,
        Raise::IndexError => 2,
        Raise::DivisionByZero => 3,
        Raise::NullReference => 4,
        Raise::UnsetField => 5,
        Raise::StaleIterator => 6,
    }
}

/// A handler of the top takes the text, and the top goes on at the handler's block: its place comes back.
pub fn take_raise(
    p: Position,
    stack: &mut Stack,
    memory: &mut Memory,
    handler: Handler,
    text: SharedBytes,
) -> Position
    requires there { handler.slot < length stack.old.slots }
    requires fits { FitsWith memory.old.heap stack.old memory.old.globals.items None }
    ensures position { result ≡ to_block p handler.block }
    ensures stack { stack.new ≡ with_slots stack.old
        (slice_set stack.old.slots handler.slot (values.Text text)) }
    ensures globals { memory.new.globals.items ≡ memory.old.globals.items }
    ensures fewer { Fewer memory.old.heap memory.new.heap }
    ensures fits { FitsWith memory.new.heap stack.new memory.new.globals.items None }
{
    let slot = Variable::Slot { n: handler.slot };
    put(stack, memory, slot, Value::Text(text));
    Position {
        block: handler.block,
        at: 0,
        ..p
    }
}

/// An exception is raised in the top. The first handler of its block that catches it takes the text, and the top goes
/// on at the handler's block; without one the top ends.
pub fn raise(
    program: &Program,
    p: &mut Position,
    stack: &mut Stack,
    memory: &mut Memory,
    exception: u32,
    text: SharedBytes,
) -> Did
    requires there { exception < length program.now.exceptions }
    requires may { MayRaise program.now p.old stack.old.slots }
    requires stands { Stands p.old stack.old memory.old }
    ensures { Acts
        (of_state (λ st. as_action (raised program.now p.old stack.old.slots st exception text))
        memory.old.globals.items)
        p.old stack.old memory.old result p.new stack.new memory.new }
{
    let _parts = program.parts();
    match handler(program, p.function, p.block, exception) {
        Some(handler) => {
            *p = take_raise(*p, stack, memory, handler, text);
            Did::Went
        }
        None => Did::Left {
            ending: Ending::Raised { exception, text },
        },
    }
}

/// A built-in exception is raised in the top, without a text.
pub fn raise_error(
    program: &Program,
    p: &mut Position,
    stack: &mut Stack,
    memory: &mut Memory,
    error: Raise,
) -> Did
    requires may { MayRaise program.now p.old stack.old.slots }
    requires stands { Stands p.old stack.old memory.old }
    ensures { Acts
        (of_state (λ st. refuses program.now p.old stack.old.slots st error)
        memory.old.globals.items)
        p.old stack.old memory.old result p.new stack.new memory.new }
{
    let exception = raise_number(program, error);
    raise(program, p, stack, memory, exception, SharedBytes::empty())
}

/// What was computed is held, and is an instruction's answer.
pub fn hold_made(heap: &mut Heap, made: Made) -> Result<Option<Value>, OpFault>
    requires { IfGives made (λ value. AreKept heap.old (λ s. held s value)) }
    ensures { Meets (answer_of made) result heap.old heap.new }
{
    match made {
        Made::Gives { value } => {
            heap.hold_value(&value)?;
            Ok(Some(value))
        }
        Made::Raises { raise } => Err(OpFault::Raise(raise)),
    }
}

/// What an instruction answered: its value goes to the target, or is let go where there is none, and the top goes on; a
/// raise goes to its handler.
pub fn complete(
    program: &Program,
    p: &mut Position,
    stack: &mut Stack,
    memory: &mut Memory,
    target: Option<Variable>,
    answer: Result<Option<Value>, OpFault>,
) -> Result<Did, NoMemory>
    requires there { IfSome target (IsThere stack.old.slots memory.old.globals.items) }
    requires may { MayRaise program.now p.old stack.old.slots }
    requires room { p.old.at + 1 < 2 ^ 32 }
    requires none_made { stack.old.made ≡ [] }
    requires fits { Fitted answer memory.old.heap stack.old memory.old.globals.items }
    ensures { (does : Store → Answer) (before : spec.Memory) →
        memory.old.globals.items ≡ before.globals.items →
        Meets does answer before.heap memory.old.heap →
        IfOk result (λ did. Acts
        (of_state (λ st. answers program.now p.old stack.old.slots st target (does st.store))
        before.globals.items) p.old stack.old before did p.new stack.new memory.new) }
{
    match answer {
        Ok(value) => {
            receive(stack, memory, target, value);
            p.at += 1;
            Ok(Did::Went)
        }
        Err(OpFault::Raise(error)) => { Ok(raise_error(program, p, stack, memory, error)) }
        Err(OpFault::NoMemory) => Err(NoMemory),
    }
}

/// What was computed goes to its target, or what it raised to its handler.
pub fn give(
    program: &Program,
    p: &mut Position,
    stack: &mut Stack,
    memory: &mut Memory,
    target: Variable,
    made: Made,
) -> Result<Did, NoMemory>
    requires there { IsThere stack.old.slots memory.old.globals.items target }
    requires owned { IfGives made (λ value. (s : ℕ) →
        held s value ≤ owned stack.old memory.old.globals.items s) }
    requires may { MayRaise program.now p.old stack.old.slots }
    requires stands { Stands p.old stack.old memory.old }
    ensures { IfOk result (λ did. Acts
        (of_state (λ st. gives program.now p.old stack.old.slots st target made)
        memory.old.globals.items) p.old stack.old memory.old did p.new stack.new memory.new) }
{
    let answer = hold_made(&mut memory.heap, made);
    let did = complete(program, p, stack, memory, Some(target), answer)?;
    Ok(did)
}
