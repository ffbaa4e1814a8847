//! Instructions that call a function, now or later.
ghost use Rattle.std.specs.Prelude.{◌≡◌, ◌++◌, [], Some, IfOk};
ghost use Rattle.hilti_calls.specs.Calls.{Action.Call};
ghost use Rattle.hilti_heap_ops.specs.Meaning as meaning;
ghost use Rattle.hilti_effects.specs.Acting.{answers, at, entry, next};
ghost use Rattle.hilti_effects.specs.Asks.{AreThere, AsksCall, IsThere};
ghost use Rattle.hilti_effects.specs.Operands.{values_at};
ghost use Rattle.hilti_acting.specs.Acts.{Acts, Stands, MayRaise, of_state};
ghost use Rattle.hilti_acting.specs.Free.{AreFree};

use crate::arguments::arguments;
use crate::did::Did;
use crate::finishing::complete;
use crate::memory::Memory;
use crate::places::value_at;
use hilti_base::{FnId, NoMemory};
use hilti_heap_ops::callable_bind;
use hilti_openings::make_locals;
use hilti_parts::Variable;
use hilti_program::Program;
use hilti_rows::Source;
use hilti_stack::{Head, Position, Stack};
use hilti_values::{Value, Values, share};
use std::alloc::Global;

/// A function is called with the values of sources. It becomes the top, at its first instruction, and the caller waits
/// behind its call.
pub fn call_row(
    alloc: Global,
    program: &Program,
    p: &mut Position,
    stack: &mut Stack,
    memory: &mut Memory,
    function: FnId,
    sources: &[Source],
    target: Option<Variable>,
) -> Result<Did, NoMemory>
    requires asks { AsksCall program.now stack.old.slots memory.old.globals.items function.n
        sources.now }
    requires free { AreFree sources.now }
    requires stands { Stands p.old stack.old memory.old }
    ensures { IfOk result (λ did. Acts (of_state (λ st.
        Call (entry program.now function (values_at stack.old.slots st.globals sources.now) target)
        [] (at (next p.old) stack.old.slots) st)
        memory.old.globals.items) p.old stack.old memory.old did p.new stack.new memory.new) }
{
    arguments(alloc, stack, memory, sources)?;
    make_locals(alloc, program, stack, function)?;
    p.at += 1;
    stack.enter(Head::Function(*p))?;
    *p = Position {
        function,
        block: 0,
        at: 0,
        target,
    };
    Ok(Did::Called)
}

/// The values at sources, in their order. They are not held yet.
fn shared_values(
    alloc: Global,
    stack: &Stack,
    globals: &[Value],
    sources: &[Source],
) -> Result<Values, NoMemory>
    requires { AreThere stack.now.slots globals.now sources.now }
    ensures { IfOk result (λ values. values ≡ values_at stack.now.slots globals.now sources.now) }
{
    let mut values = Values::new(alloc);
    for source in sources {
        values.push(share(alloc, value_at(stack, globals, source))?)?;
    }
    Ok(values)
}

/// A callable of a function with its arguments, which it holds, goes to the target.
pub fn bind_row(
    alloc: Global,
    program: &Program,
    p: &mut Position,
    stack: &mut Stack,
    memory: &mut Memory,
    target: Variable,
    function: FnId,
    sources: &[Source],
) -> Result<Did, NoMemory>
    requires asks { AreThere stack.old.slots memory.old.globals.items sources.now }
    requires free { AreFree sources.now }
    requires there { IsThere stack.old.slots memory.old.globals.items target }
    requires may { MayRaise program.now p.old stack.old.slots }
    requires stands { Stands p.old stack.old memory.old }
    ensures { IfOk result (λ did. Acts
        (of_state (λ st. answers program.now p.old stack.old.slots st (Some target)
        (meaning.callable_bind function.n (values_at stack.old.slots st.globals sources.now)
        st.store)) memory.old.globals.items)
        p.old stack.old memory.old did p.new stack.new memory.new) }
{
    let values = shared_values(alloc, stack, memory.globals.as_slice(), sources)?;
    let answer = callable_bind(&mut memory.heap, function, values);
    let did = complete(program, p, stack, memory, Some(target), answer)?;
    Ok(did)
}
