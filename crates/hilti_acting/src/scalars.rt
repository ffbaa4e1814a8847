//! Instructions that compute a value of others.
ghost use Rattle.std.specs.Prelude.{◌≡◌, ◌≤◌, ℕ, Some, Ok as Good, IfOk, IsSome, cond};
ghost use Rattle.hilti_values.specs.declared.value.Value.TheVariants as values;
ghost use Rattle.hilti_heap_ops.specs.Meaning.{is_null};
ghost use Rattle.hilti_scalar_ops.specs.Computing.{IsBool, truth_of, unary_of, binary_of};
ghost use Rattle.hilti_effects.specs.Acting.{gives, assigns};
ghost use Rattle.hilti_effects.specs.Asks.{AsksUnary, AsksBinary, AsksSelect, Gets, Any, IsThere};
ghost use Rattle.hilti_effects.specs.Operands as operands;
ghost use Rattle.hilti_acting.specs.Acts.{Acts, Stands, MayRaise, of_state};
ghost use Rattle.hilti_acting.specs.Owned.{IsFree};

use crate::did::Did;
use crate::finishing::{complete, give};
use crate::memory::Memory;
use crate::places::value_at;
use hilti_base::NoMemory;
use hilti_heap_ops::ref_is_null;
use hilti_parts::Variable;
use hilti_program::Program;
use hilti_rows::{Binary, Source, Unary};
use hilti_scalar_ops::{Made, compute_binary, compute_unary, truth};
use hilti_stack::{Position, Stack};
use hilti_values::{Value, share};
use std::alloc::Global;

/// What is computed of one value.
pub fn unary_row(
    alloc: Global,
    program: &Program,
    p: &mut Position,
    stack: &mut Stack,
    memory: &mut Memory,
    op: Unary,
    target: Variable,
    a: &Source,
) -> Result<Did, NoMemory>
    requires asks { AsksUnary stack.old.slots memory.old.globals.items op target a.now }
    requires free { IsFree a.now }
    requires may { MayRaise program.now p.old stack.old.slots }
    requires stands { Stands p.old stack.old memory.old }
    ensures { IfOk result (λ did. Acts
        (of_state (λ st. gives program.now p.old stack.old.slots st target
        (unary_of op (operands.value_at stack.old.slots st.globals a.now)))
        memory.old.globals.items) p.old stack.old memory.old did p.new stack.new memory.new) }
{
    let value = value_at(stack, memory.globals.as_slice(), a);
    let made = compute_unary(alloc, op, value)?;
    let did = give(program, p, stack, memory, target, made)?;
    Ok(did)
}

/// What is computed of two values.
pub fn binary_row(
    program: &Program,
    p: &mut Position,
    stack: &mut Stack,
    memory: &mut Memory,
    op: Binary,
    target: Variable,
    a: &Source,
    b: &Source,
) -> Result<Did, NoMemory>
    requires asks { AsksBinary stack.old.slots memory.old.globals.items op target a.now b.now }
    requires may { MayRaise program.now p.old stack.old.slots }
    requires stands { Stands p.old stack.old memory.old }
    ensures { IfOk result (λ did. Acts
        (of_state (λ st. gives program.now p.old stack.old.slots st target
        (binary_of op (operands.value_at stack.old.slots st.globals a.now)
        (operands.value_at stack.old.slots st.globals b.now)))
        memory.old.globals.items) p.old stack.old memory.old did p.new stack.new memory.new) }
{
    let first = value_at(stack, memory.globals.as_slice(), a);
    let second = value_at(stack, memory.globals.as_slice(), b);
    let made = compute_binary(op, first, second);
    let did = give(program, p, stack, memory, target, made)?;
    Ok(did)
}

/// The first of two values where the test is True, else the second.
fn chosen<'a>(
    stack: &'a Stack,
    globals: &'a [Value],
    test: &'a Source,
    yes: &'a Source,
    no: &'a Source,
) -> &'a Value
    requires test { IsBool (operands.value_at stack.now.slots globals.now test.now) }
    requires tested { IsSome (operands.found stack.now.slots globals.now test.now) }
    requires first { IsSome (operands.found stack.now.slots globals.now yes.now) }
    requires second { IsSome (operands.found stack.now.slots globals.now no.now) }
    ensures { cond (truth_of (operands.value_at stack.now.slots globals.now test.now))
        (operands.value_at stack.now.slots globals.now yes.now)
        (operands.value_at stack.now.slots globals.now no.now) ≡ result.now }
{
    if truth(value_at(stack, globals, test)) {
        value_at(stack, globals, yes)
    } else {
        value_at(stack, globals, no)
    }
}

/// The first of two values where the test is True, else the second, goes to the target.
pub fn select_row(
    alloc: Global,
    program: &Program,
    p: &mut Position,
    stack: &mut Stack,
    memory: &mut Memory,
    target: Variable,
    test: &Source,
    yes: &Source,
    no: &Source,
) -> Result<Did, NoMemory>
    requires asks { AsksSelect stack.old.slots memory.old.globals.items target test.now yes.now
        no.now }
    requires first_free { IsFree yes.now }
    requires second_free { IsFree no.now }
    requires may { MayRaise program.now p.old stack.old.slots }
    requires stands { Stands p.old stack.old memory.old }
    ensures { IfOk result (λ did. Acts
        (of_state (λ st. assigns p.old stack.old.slots st target
        (cond (truth_of (operands.value_at stack.old.slots st.globals test.now))
        (operands.value_at stack.old.slots st.globals yes.now)
        (operands.value_at stack.old.slots st.globals no.now)))
        memory.old.globals.items) p.old stack.old memory.old did p.new stack.new memory.new) }
{
    let source = chosen(stack, memory.globals.as_slice(), test, yes, no);
    let value = share(alloc, source)?;
    let did = give(program, p, stack, memory, target, Made::Gives { value })?;
    Ok(did)
}

/// Whether a reference, an iterator or a callable is Null.
pub fn is_null_row(
    program: &Program,
    p: &mut Position,
    stack: &mut Stack,
    memory: &mut Memory,
    target: Variable,
    object: &Source,
) -> Result<Did, NoMemory>
    requires asks { Gets stack.old.slots memory.old.globals.items Any object.now }
    requires there { IsThere stack.old.slots memory.old.globals.items target }
    requires may { MayRaise program.now p.old stack.old.slots }
    requires stands { Stands p.old stack.old memory.old }
    ensures { IfOk result (λ did. Acts
        (of_state (λ st. assigns p.old stack.old.slots st target
        (values.Bool (is_null (operands.value_at stack.old.slots st.globals object.now))))
        memory.old.globals.items) p.old stack.old memory.old did p.new stack.new memory.new) }
{
    let value = value_at(stack, memory.globals.as_slice(), object);
    let null = ref_is_null(value);
    let did = complete(program, p, stack, memory, Some(target), Ok(Some(null)))?;
    Ok(did)
}
