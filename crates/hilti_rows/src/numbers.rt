//! The rows on whole numbers.
ghost use Rattle.std.specs.Prelude.{◌≡◌, Some, IfOk};
ghost use Rattle.hilti_typing.specs.Fits.{width_of, int_width, first_width, variable_width};
ghost use Rattle.hilti_rows.specs.Resolving.{int_op as int_op_of, comparison as comparison_of};
ghost use Rattle.hilti_rows.specs.Resolving.{width as width_by, line_width as line_width_of};
ghost use Rattle.hilti_rows.specs.Resolving.{sized as sized_of, compared as compared_of};
ghost use Rattle.hilti_rows.specs.Resolving.{target_width as target_width_of};
ghost use Rattle.hilti_rows.specs.Resolving.{converted as converted_of, numbers_row};
ghost use Rattle.hilti_rows.specs.declared.row.Unary.TheVariants as unaries;

use crate::instructions::{binary, unary};
use crate::row::{Binary, Row, Unary};
use hilti_base::NoMemory;
use hilti_int::{IntCmp, IntOp, Width};
use hilti_parts::{Instruction, Operand};
use hilti_types::{Op, ValueType};
use std::alloc::Global;

/// The operation on two whole numbers.
fn int_op(op: Op) -> Option<IntOp>
    ensures { result ≡ int_op_of op }
{
    let op = match op {
        Op::IntAdd => IntOp::Add,
        Op::IntSub => IntOp::Sub,
        Op::IntMul => IntOp::Mul,
        Op::IntDiv => IntOp::Div,
        Op::IntMod => IntOp::Mod,
        Op::IntSdiv => IntOp::Sdiv,
        Op::IntSmod => IntOp::Smod,
        Op::IntAnd => IntOp::And,
        Op::IntOr => IntOp::Or,
        Op::IntXor => IntOp::Xor,
        Op::IntShl => IntOp::Shl,
        Op::IntShr => IntOp::Shr,
        Op::IntSshr => IntOp::Sshr,
        Op::IntAddExact => IntOp::AddExact,
        Op::IntSubExact => IntOp::SubExact,
        Op::IntMulExact => IntOp::MulExact,
        Op::IntShlExact => IntOp::ShlExact,
        Op::IntSdivExact => IntOp::SdivExact,
        _ => return None,
    };
    Some(op)
}

/// The comparison of two whole numbers.
fn comparison(op: Op) -> Option<IntCmp>
    ensures { result ≡ comparison_of op }
{
    let test = match op {
        Op::IntLt => IntCmp::Lt,
        Op::IntGt => IntCmp::Gt,
        Op::IntLeq => IntCmp::Leq,
        Op::IntGeq => IntCmp::Geq,
        Op::IntSlt => IntCmp::Slt,
        Op::IntSgt => IntCmp::Sgt,
        _ => return None,
    };
    Some(test)
}

/// The width of so many bits.
fn width(bits: u8) -> Option<Width>
    ensures { result ≡ width_by bits }
{
    match bits {
        8 => Some(Width::W8),
        16 => Some(Width::W16),
        32 => Some(Width::W32),
        64 => Some(Width::W64),
        _ => None,
    }
}

/// The bits of a type of whole numbers.
fn bits(kind: &ValueType) -> Option<u8>
    ensures { result ≡ int_width (Some kind.now) }
{
    match kind {
        ValueType::Int { bits } => Some(*bits),
        _ => None,
    }
}

/// The bits of a variable's type.
fn variable_bits(operand: &Operand) -> Option<u8>
    ensures { result ≡ variable_width operand.now }
{
    match operand {
        Operand::Var { v: _, kind } => bits(kind),
        _ => None,
    }
}

/// The bits of the first variable of a type of whole numbers.
#[tactic(auto, unfolding(hilti_typing::specs::Fits::first_width))]
fn first_bits(operands: &[Operand]) -> Option<u8>
    ensures { result ≡ first_width operands.now }
{
    for operand in operands {
        if let Some(bits) = variable_bits(operand) {
            return Some(bits);
        }
    }
    None
}

/// The bits of the target's type.
fn target_bits(i: &Instruction) -> Option<u8>
    ensures { result ≡ int_width i.now.kind }
{
    match &i.kind {
        Some(kind) => bits(kind),
        None => None,
    }
}

/// The width of an instruction's numbers: that of the first operand that is a variable of such a type, else of the
/// target, else 64.
fn line_width(i: &Instruction) -> Option<Width>
    ensures { result ≡ line_width_of i.now }
{
    let bits = first_bits(i.operands.as_slice())
        .or(target_bits(i))
        .unwrap_or(64);
    width(bits)
}

fn target_width(i: &Instruction) -> Option<Width>
    ensures { result ≡ target_width_of i.now }
{
    width(target_bits(i)?)
}

fn sized(alloc: Global, op: IntOp, i: &Instruction) -> Result<Option<Row>, NoMemory>
    ensures { IfOk result (λ row. row ≡ sized_of op i.now) }
{
    match line_width(i) {
        Some(width) => Ok(binary(alloc, Binary::Int { op, width }, i)?),
        None => Ok(None),
    }
}

fn compared(alloc: Global, op: IntCmp, i: &Instruction) -> Result<Option<Row>, NoMemory>
    ensures { IfOk result (λ row. row ≡ compared_of op i.now) }
{
    match line_width(i) {
        Some(width) => Ok(binary(alloc, Binary::Compare { op, width }, i)?),
        None => Ok(None),
    }
}

/// A number of the target's width.
pub fn int_as(alloc: Global, i: &Instruction) -> Result<Option<Row>, NoMemory>
    ensures { IfOk result (λ row. row ≡ converted_of unaries.IntAs i.now) }
{
    match target_width(i) {
        Some(width) => Ok(unary(alloc, Unary::IntAs { width }, i)?),
        None => Ok(None),
    }
}

/// A number of the target's width, which it has to fit.
pub fn int_as_exact(alloc: Global, i: &Instruction) -> Result<Option<Row>, NoMemory>
    ensures { IfOk result (λ row. row ≡ converted_of unaries.IntAsExact i.now) }
{
    match target_width(i) {
        Some(width) => Ok(unary(alloc, Unary::IntAsExact { width }, i)?),
        None => Ok(None),
    }
}

/// The row of an instruction on two whole numbers.
pub fn of_numbers(alloc: Global, i: &Instruction) -> Result<Option<Row>, NoMemory>
    ensures { IfOk result (λ row. row ≡ numbers_row i.now) }
{
    match (int_op(i.op), comparison(i.op)) {
        (Some(op), _) => Ok(sized(alloc, op, i)?),
        (None, Some(test)) => Ok(compared(alloc, test, i)?),
        (None, None) => Ok(None),
    }
}
