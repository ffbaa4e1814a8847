//! The rows on structs.
ghost use Rattle.std.specs.Prelude.{◌≡◌, IfOk};
ghost use Rattle.hilti_rows.specs.Resolving.{new_struct as new_struct_of};
ghost use Rattle.hilti_rows.specs.Resolving.{struct_get as struct_get_of};
ghost use Rattle.hilti_rows.specs.Resolving.{struct_is_set as struct_is_set_of};
ghost use Rattle.hilti_rows.specs.Resolving.{struct_set as struct_set_of};
ghost use Rattle.hilti_rows.specs.Resolving.{struct_unset as struct_unset_of};

use crate::names::{field_of, struct_of};
use crate::row::{Row, StructRow};
use crate::sources::{source, together, two_sources};
use hilti_base::NoMemory;
use hilti_parts::{Instruction, Operand};
use std::alloc::Global;

pub fn new_struct(i: &Instruction) -> Option<Row>
    ensures { result ≡ new_struct_of i.now.target i.now.operands }
{
    let (Some(target), [word]) = (i.target, i.operands.as_slice()) else {
        return None;
    };
    let declared = struct_of(word)?;
    Some(Row::Struct {
        row: StructRow::New { target, declared },
    })
}

pub fn struct_get(alloc: Global, i: &Instruction) -> Result<Option<Row>, NoMemory>
    ensures { IfOk result (λ row. row ≡ struct_get_of i.now.target i.now.operands) }
{
    let (Some(target), [object, field]) = (i.target, i.operands.as_slice()) else {
        return Ok(None);
    };
    let Some((object, field)) = together(source(alloc, object)?, field_of(field)) else {
        return Ok(None);
    };
    let row = StructRow::Get {
        target,
        object,
        field,
    };
    Ok(Some(Row::Struct { row }))
}

pub fn struct_is_set(alloc: Global, i: &Instruction) -> Result<Option<Row>, NoMemory>
    ensures { IfOk result (λ row. row ≡ struct_is_set_of i.now.target i.now.operands) }
{
    let (Some(target), [object, field]) = (i.target, i.operands.as_slice()) else {
        return Ok(None);
    };
    let Some((object, field)) = together(source(alloc, object)?, field_of(field)) else {
        return Ok(None);
    };
    let row = StructRow::IsSet {
        target,
        object,
        field,
    };
    Ok(Some(Row::Struct { row }))
}

pub fn struct_set(alloc: Global, operands: &[Operand]) -> Result<Option<Row>, NoMemory>
    ensures { IfOk result (λ row. row ≡ struct_set_of operands.now) }
{
    let [object, field, value] = operands else {
        return Ok(None);
    };
    let Some(field) = field_of(field) else {
        return Ok(None);
    };
    let Some((object, value)) = two_sources(alloc, object, value)? else {
        return Ok(None);
    };
    let row = StructRow::Set {
        object,
        field,
        value,
    };
    Ok(Some(Row::Struct { row }))
}

pub fn struct_unset(alloc: Global, operands: &[Operand]) -> Result<Option<Row>, NoMemory>
    ensures { IfOk result (λ row. row ≡ struct_unset_of operands.now) }
{
    let [object, field] = operands else {
        return Ok(None);
    };
    let Some((object, field)) = together(source(alloc, object)?, field_of(field)) else {
        return Ok(None);
    };
    let row = StructRow::Unset { object, field };
    Ok(Some(Row::Struct { row }))
}
