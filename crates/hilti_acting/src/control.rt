//! Instructions that say where a call goes on.
ghost use Rattle.std.specs.Prelude.{◌≡◌, [], ◌∷◌, ◌<◌, Some, None, IfOk, IsSome, cond, length};
ghost use Rattle.hilti_calls.specs.Calls.{Action.Go, Action.Leave};
ghost use Rattle.hilti_calls.specs.Parts.{Mark.Cut};
ghost use Rattle.hilti_core.specs.declared.pieces.End.TheVariants as ends;
ghost use Rattle.hilti_scalar_ops.specs.Computing.{IsBool, truth_of};
ghost use Rattle.hilti_effects.specs.Acting as acting;
ghost use Rattle.hilti_effects.specs.Acting.{at, next, passes};
ghost use Rattle.hilti_effects.specs.Asks.{Gets, Any, IsText};
ghost use Rattle.hilti_effects.specs.Operands as operands;
ghost use Rattle.hilti_effects.specs.Raising.{raised, as_action, to_block};
ghost use Rattle.hilti_effects.specs.declared.ending.Ending.TheVariants as endings;
ghost use Rattle.hilti_acting.specs.Acts.{Acts, Stands, MayRaise, of_state};
ghost use Rattle.hilti_acting.specs.Owned.{IsFree};

use crate::did::Did;
use crate::finishing::raise;
use crate::memory::Memory;
use crate::places::{hold_share, value_at};
use hilti_base::NoMemory;
use hilti_effects::Ending;
use hilti_program::Program;
use hilti_rows::Source;
use hilti_scalar_ops::truth;
use hilti_stack::{Position, Stack};
use hilti_values::{SharedBytes, Value};
use std::alloc::Global;

/// Nothing is done.
pub fn nop_row(p: &mut Position, stack: &Stack, memory: &Memory) -> Did
    requires stands { Stands p.old stack.now memory.now }
    ensures { Acts (of_state (passes p.old stack.now.slots) memory.now.globals.items)
        p.old stack.now memory.now result p.new stack.now memory.now }
{
    p.at += 1;
    Did::Went
}

/// The thread is suspended, and goes on behind.
pub fn yield_row(p: &mut Position, stack: &Stack, memory: &Memory) -> Did
    requires stands { Stands p.old stack.now memory.now }
    ensures { Acts (of_state (λ st.
        Go (Cut (record { «end» = ends.Yielded; state = st; place = Some (next p.old) }) ∷ [])
        (at (next p.old) stack.now.slots) st) memory.now.globals.items)
        p.old stack.now memory.now result p.new stack.now memory.now }
{
    p.at += 1;
    Did::Yielded
}

/// The function goes on at the beginning of a block.
pub fn jump_row(p: &mut Position, stack: &Stack, memory: &Memory, block: u32) -> Did
    requires stands { Stands p.old stack.now memory.now }
    ensures { Acts (of_state (λ st. Go [] (at (to_block p.old block) stack.now.slots) st)
        memory.now.globals.items) p.old stack.now memory.now result p.new stack.now memory.now }
{
    p.block = block;
    p.at = 0;
    Did::Went
}

/// It goes on at one of two blocks, by a test.
pub fn if_else_row(
    p: &mut Position,
    stack: &Stack,
    memory: &Memory,
    test: &Source,
    yes: u32,
    no: u32,
) -> Did
    requires asks { Gets stack.now.slots memory.now.globals.items IsBool test.now }
    requires stands { Stands p.old stack.now memory.now }
    ensures { Acts (of_state (λ st. Go [] (at (to_block p.old
        (cond (truth_of (operands.value_at stack.now.slots st.globals test.now)) yes no))
        stack.now.slots) st)
        memory.now.globals.items) p.old stack.now memory.now result p.new stack.now memory.now }
{
    let block = if truth(value_at(stack, memory.globals.as_slice(), test)) {
        yes
    } else {
        no
    };
    jump_row(p, stack, memory, block)
}

/// The function ends without a result.
pub fn return_void_row(p: &Position, stack: &Stack, memory: &Memory) -> Did
    requires stands { Stands p.now stack.now memory.now }
    ensures { Acts (of_state (λ st. Leave (endings.Returned p.now.target None) st)
        memory.now.globals.items) p.now stack.now memory.now result p.now stack.now memory.now }
{
    Did::Left {
        ending: Ending::Returned {
            target: p.target,
            value: None,
        },
    }
}

/// The function ends with a result, which is held besides its slots.
pub fn return_result_row(
    alloc: Global,
    p: &Position,
    stack: &Stack,
    memory: &mut Memory,
    value: &Source,
) -> Result<Did, NoMemory>
    requires asks { Gets stack.now.slots memory.old.globals.items Any value.now }
    requires free { IsFree value.now }
    requires stands { Stands p.now stack.now memory.old }
    ensures { IfOk result (λ did. Acts (of_state (λ st. Leave (endings.Returned p.now.target
        (Some (operands.value_at stack.now.slots st.globals value.now))) st)
        memory.old.globals.items) p.now stack.now memory.old did p.now stack.now memory.new) }
{
    let source = value_at(stack, memory.globals.as_slice(), value);
    let shared = hold_share(alloc, &mut memory.heap, source)?;
    Ok(Did::Left {
        ending: Ending::Returned {
            target: p.target,
            value: Some(shared),
        },
    })
}

/// The text that a value is.
fn text_of(value: &Value) -> Result<SharedBytes, NoMemory>
    requires { IsText value.now }
    ensures { IfOk result (λ text. text ≡ acting.text_of value.now) }
{
    match value {
        Value::Text(text) => Ok(text.share()?),
        _ => unreachable!(),
    }
}

/// An exception is raised with a text.
pub fn throw_row(
    program: &Program,
    p: &mut Position,
    stack: &mut Stack,
    memory: &mut Memory,
    exception: u32,
    text: &Source,
) -> Result<Did, NoMemory>
    requires there { exception < length program.now.exceptions }
    requires asks { Gets stack.old.slots memory.old.globals.items IsText text.now }
    requires may { MayRaise program.now p.old stack.old.slots }
    requires stands { Stands p.old stack.old memory.old }
    ensures { IfOk result (λ did. Acts
        (of_state (λ st. as_action (raised program.now p.old stack.old.slots st exception
        (acting.text_of (operands.value_at stack.old.slots st.globals text.now))))
        memory.old.globals.items) p.old stack.old memory.old did p.new stack.new memory.new) }
{
    let shared = text_of(value_at(stack, memory.globals.as_slice(), text))?;
    Ok(raise(program, p, stack, memory, exception, shared))
}
