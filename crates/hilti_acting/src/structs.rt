//! Instructions on structs.
ghost use Rattle.std.specs.Prelude.{◌≡◌, IfOk};
ghost use Rattle.hilti_effects.specs.Acting as acting;
ghost use Rattle.hilti_effects.specs.Acting.{on_struct};
ghost use Rattle.hilti_effects.specs.Asks.{Gets, Any, IsThere};
ghost use Rattle.hilti_heap_ops.specs.Shapes.{HasField};
ghost use Rattle.hilti_rows.specs.declared.row.StructRow.TheVariants as structs;
ghost use Rattle.hilti_acting.specs.Acts.{Acts, Stands, MayRaise, of_state};
ghost use Rattle.hilti_acting.specs.Owned.{IsFree};

use crate::did::Did;
use crate::finishing::complete;
use crate::memory::Memory;
use crate::places::value_at;
use hilti_base::NoMemory;
use hilti_heap_ops::{new_struct, struct_get, struct_is_set, struct_set, struct_unset};
use hilti_parts::Variable;
use hilti_program::Program;
use hilti_rows::Source;
use hilti_stack::{Position, Stack};
use hilti_types::Declared;
use std::alloc::Global;

/// How many fields a declared struct has.
fn fields_of(program: &Program, declared: u32) -> usize
    ensures { result ≡ acting.fields_of program.now declared }
{
    match program.parts().types.get(declared as usize) {
        Some(Declared::Struct { name: _, fields }) => fields.len(),
        _ => 0,
    }
}

/// A new struct of a declared type, with all fields unset.
pub fn new_row(
    alloc: Global,
    program: &Program,
    p: &mut Position,
    stack: &mut Stack,
    memory: &mut Memory,
    target: Variable,
    declared: u32,
) -> Result<Did, NoMemory>
    requires there { IsThere stack.old.slots memory.old.globals.items target }
    requires may { MayRaise program.now p.old stack.old.slots }
    requires stands { Stands p.old stack.old memory.old }
    ensures { IfOk result (λ did. Acts
        (of_state (λ st. on_struct program.now p.old stack.old.slots st
        (structs.New target declared)) memory.old.globals.items)
        p.old stack.old memory.old did p.new stack.new memory.new) }
{
    let fields = fields_of(program, declared);
    let answer = new_struct(alloc, &mut memory.heap, fields);
    let did = complete(program, p, stack, memory, Some(target), answer)?;
    Ok(did)
}

/// The value of a field goes to the target.
pub fn get_row(
    alloc: Global,
    program: &Program,
    p: &mut Position,
    stack: &mut Stack,
    memory: &mut Memory,
    target: Variable,
    object: &Source,
    field: u32,
) -> Result<Did, NoMemory>
    requires asks { Gets stack.old.slots memory.old.globals.items
        (HasField memory.old.heap field) object.now }
    requires free { IsFree object.now }
    requires there { IsThere stack.old.slots memory.old.globals.items target }
    requires may { MayRaise program.now p.old stack.old.slots }
    requires stands { Stands p.old stack.old memory.old }
    ensures { IfOk result (λ did. Acts
        (of_state (λ st. on_struct program.now p.old stack.old.slots st
        (structs.Get target object.now field)) memory.old.globals.items)
        p.old stack.old memory.old did p.new stack.new memory.new) }
{
    let value = value_at(stack, memory.globals.as_slice(), object);
    let answer = struct_get(alloc, &mut memory.heap, value, field as usize);
    let did = complete(program, p, stack, memory, Some(target), answer)?;
    Ok(did)
}

/// A field has another value.
pub fn set_row(
    alloc: Global,
    program: &Program,
    p: &mut Position,
    stack: &mut Stack,
    memory: &mut Memory,
    object: &Source,
    field: u32,
    item: &Source,
) -> Result<Did, NoMemory>
    requires asks { Gets stack.old.slots memory.old.globals.items
        (HasField memory.old.heap field) object.now }
    requires item { Gets stack.old.slots memory.old.globals.items Any item.now }
    requires free { IsFree item.now }
    requires may { MayRaise program.now p.old stack.old.slots }
    requires stands { Stands p.old stack.old memory.old }
    ensures { IfOk result (λ did. Acts
        (of_state (λ st. on_struct program.now p.old stack.old.slots st
        (structs.Set object.now field item.now)) memory.old.globals.items)
        p.old stack.old memory.old did p.new stack.new memory.new) }
{
    let value = value_at(stack, memory.globals.as_slice(), object);
    let put = value_at(stack, memory.globals.as_slice(), item);
    let answer = struct_set(alloc, &mut memory.heap, value, field as usize, put);
    let did = complete(program, p, stack, memory, None, answer)?;
    Ok(did)
}

/// A field is unset.
pub fn unset_row(
    program: &Program,
    p: &mut Position,
    stack: &mut Stack,
    memory: &mut Memory,
    object: &Source,
    field: u32,
) -> Result<Did, NoMemory>
    requires asks { Gets stack.old.slots memory.old.globals.items
        (HasField memory.old.heap field) object.now }
    requires free { IsFree object.now }
    requires may { MayRaise program.now p.old stack.old.slots }
    requires stands { Stands p.old stack.old memory.old }
    ensures { IfOk result (λ did. Acts
        (of_state (λ st. on_struct program.now p.old stack.old.slots st
        (structs.Unset object.now field)) memory.old.globals.items)
        p.old stack.old memory.old did p.new stack.new memory.new) }
{
    let value = value_at(stack, memory.globals.as_slice(), object);
    let answer = struct_unset(&mut memory.heap, value, field as usize);
    let did = complete(program, p, stack, memory, None, answer)?;
    Ok(did)
}

/// Whether a field is set goes to the target.
pub fn is_set_row(
    program: &Program,
    p: &mut Position,
    stack: &mut Stack,
    memory: &mut Memory,
    target: Variable,
    object: &Source,
    field: u32,
) -> Result<Did, NoMemory>
    requires asks { Gets stack.old.slots memory.old.globals.items
        (HasField memory.old.heap field) object.now }
    requires there { IsThere stack.old.slots memory.old.globals.items target }
    requires may { MayRaise program.now p.old stack.old.slots }
    requires stands { Stands p.old stack.old memory.old }
    ensures { IfOk result (λ did. Acts
        (of_state (λ st. on_struct program.now p.old stack.old.slots st
        (structs.IsSet target object.now field)) memory.old.globals.items)
        p.old stack.old memory.old did p.new stack.new memory.new) }
{
    let value = value_at(stack, memory.globals.as_slice(), object);
    let answer = struct_is_set(&memory.heap, value, field as usize);
    let did = complete(program, p, stack, memory, Some(target), answer)?;
    Ok(did)
}
