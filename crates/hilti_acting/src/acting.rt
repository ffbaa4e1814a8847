//! What the next row of the top does.
ghost use Rattle.std.specs.Prelude.{◌≡◌, [], Some, None, IfOk};
ghost use Rattle.hilti_code.specs.Rows.{rows_of};
ghost use Rattle.hilti_effects.specs.Acting.{act_on, on_struct};
ghost use Rattle.hilti_effects.specs.Asks.{Asks, AsksStruct, Ready};
ghost use Rattle.hilti_acting.specs.Acts.{Acts, Stands, MayRaise, does_at, of_state};
ghost use Rattle.hilti_acting.specs.Free.{IsFreeRow, IsFreeStruct};
ghost use Rattle.hilti_acting.specs.Owned.{FitsWith};

use crate::calling::{bind_row, call_row};
use crate::control::{
    if_else_row, jump_row, nop_row, return_result_row, return_void_row, throw_row, yield_row,
};
use crate::did::Did;
use crate::memory::Memory;
use crate::printing::print_row;
use crate::scalars::{binary_row, is_null_row, select_row, unary_row};
use crate::structs::{get_row, is_set_row, new_row, set_row, unset_row};
use hilti_base::NoMemory;
use hilti_code::Code;
use hilti_program::Program;
use hilti_rows::{Row, StructRow};
use hilti_stack::{Position, Stack};
use std::alloc::Global;

/// Does a row on a struct.
fn perform_struct(
    alloc: Global,
    program: &Program,
    row: &StructRow,
    p: &mut Position,
    stack: &mut Stack,
    memory: &mut Memory,
) -> Result<Did, NoMemory>
    requires asks { AsksStruct stack.old.slots memory.old.globals.items memory.old.heap row.now }
    requires free { IsFreeStruct row.now }
    requires may { MayRaise program.now p.old stack.old.slots }
    requires stands { Stands p.old stack.old memory.old }
    ensures { IfOk result (λ did. Acts
        (of_state (λ st. on_struct program.now p.old stack.old.slots st row.now)
        memory.old.globals.items) p.old stack.old memory.old did p.new stack.new memory.new) }
{
    match row {
        StructRow::New { target, declared } => {
            new_row(alloc, program, p, stack, memory, *target, *declared)
        }
        StructRow::Get {
            target,
            object,
            field,
        } => get_row(alloc, program, p, stack, memory, *target, object, *field),
        StructRow::Set {
            object,
            field,
            value,
        } => set_row(alloc, program, p, stack, memory, object, *field, value),
        StructRow::Unset { object, field } => {
            unset_row(program, p, stack, memory, object, *field)
        }
        StructRow::IsSet {
            target,
            object,
            field,
        } => is_set_row(program, p, stack, memory, *target, object, *field),
    }
}

/// Does a row.
#[tactic(auto, unfolding(hilti_effects::specs::Acting::act_on))]
fn perform(
    alloc: Global,
    program: &Program,
    row: &Row,
    p: &mut Position,
    stack: &mut Stack,
    memory: &mut Memory,
) -> Result<Did, NoMemory>
    requires asks { Asks program.now stack.old.slots memory.old.globals.items memory.old.heap
        row.now }
    requires free { IsFreeRow row.now }
    requires may { MayRaise program.now p.old stack.old.slots }
    requires stands { Stands p.old stack.old memory.old }
    ensures { IfOk result (λ did. Acts
        (of_state (λ st. act_on program.now p.old stack.old.slots st row.now)
        memory.old.globals.items) p.old stack.old memory.old did p.new stack.new memory.new) }
{
    match row {
        Row::Nop => Ok(nop_row(p, stack, memory)),
        Row::Unary { op, target, a } => {
            unary_row(alloc, program, p, stack, memory, *op, *target, a)
        }
        Row::Binary { op, target, a, b } => {
            binary_row(program, p, stack, memory, *op, *target, a, b)
        }
        Row::Select {
            target,
            test,
            yes,
            no,
        } => select_row(alloc, program, p, stack, memory, *target, test, yes, no),
        Row::IsNull { target, object } => is_null_row(program, p, stack, memory, *target, object),
        Row::Print { items } => print_row(alloc, program, p, stack, memory, items.as_slice()),
        Row::Yield => Ok(yield_row(p, stack, memory)),
        Row::Call {
            function,
            arguments,
            target,
        } => call_row(
            alloc,
            program,
            p,
            stack,
            memory,
            *function,
            arguments.as_slice(),
            *target,
        ),
        Row::Bind {
            target,
            function,
            arguments,
        } => bind_row(
            alloc,
            program,
            p,
            stack,
            memory,
            *target,
            *function,
            arguments.as_slice(),
        ),
        Row::Jump { to } => Ok(jump_row(p, stack, memory, *to)),
        Row::IfElse { test, yes, no } => Ok(if_else_row(p, stack, memory, test, *yes, *no)),
        Row::ReturnVoid => Ok(return_void_row(p, stack, memory)),
        Row::ReturnResult { value } => return_result_row(alloc, p, stack, memory, value),
        Row::Throw { exception, text } => { throw_row(program, p, stack, memory, *exception, text) }
        Row::Struct { row } => perform_struct(alloc, program, row, p, stack, memory),
    }
}

/// Does the next row of the top. Without memory the position, the stack and the memory are only dropped.
pub fn act(
    alloc: Global,
    program: &Program,
    code: &Code,
    p: &mut Position,
    stack: &mut Stack,
    memory: &mut Memory,
) -> Result<Did, NoMemory>
    requires code { rows_of program.now ≡ Some code.now.functions }
    requires ready { Ready program.now p.old stack.old.slots memory.old.globals.items
        memory.old.heap }
    requires none_made { stack.old.made ≡ [] }
    requires fits { FitsWith memory.old.heap stack.old memory.old.globals.items None }
    ensures { IfOk result (λ did. Acts
        (does_at program.now p.old stack.old.slots memory.old.globals.items)
        p.old stack.old memory.old did p.new stack.new memory.new) }
{
    let _parts = program.parts();
    let Some(row) = code.fetch(*p) else {
        unreachable!()
    };
    perform(alloc, program, row, p, stack, memory)
}
