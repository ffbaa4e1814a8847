ghost use Rattle.std.specs.Prelude.{◌≡◌, IfOk};
ghost use Rattle.hilti_bytes_ops.specs.Computing.{TakesOne, TakesTwo, TakesSub};
ghost use Rattle.hilti_bytes_ops.specs.Computing.{unary_of, binary_of, sub_of};
ghost use Rattle.hilti_bytes_ops.specs.Computing.{number as number_of};

use crate::finding::{begins, place};
use crate::numbers::{byte_number, integer, unsigned};
use crate::operands::{bytes, small, whole};
use crate::operations::{BytesBinary, BytesUnary};
use crate::pieces::{joined, piece};
use hilti_base::{NoMemory, Raise};
use hilti_values::Value;
use std::alloc::Global;

/// A number, or the raise in its place.
#[inline]
fn number(outcome: Result<u64, Raise>) -> Result<Value, Raise>
    ensures { result ≡ number_of outcome }
{
    Ok(Value::Int(outcome?))
}

/// What is computed of bytes, or the raise in its place. It takes no memory.
#[inline]
pub fn compute_unary(op: BytesUnary, a: &Value) -> Result<Value, Raise>
    requires { TakesOne a.now }
    ensures { result ≡ unary_of op a.now }
{
    match op {
        BytesUnary::Length => Ok(Value::Int(bytes(a).len() as u64)),
        BytesUnary::ToUintBig => number(unsigned(bytes(a), true)),
        BytesUnary::ToUintLittle => number(unsigned(bytes(a), false)),
    }
}

/// What is computed of two values, or the raise in its place. Only a join takes memory.
#[inline]
pub fn compute_binary(
    alloc: Global,
    op: BytesBinary,
    a: &Value,
    b: &Value,
) -> Result<Result<Value, Raise>, NoMemory>
    requires { TakesTwo op a.now b.now }
    ensures { IfOk result (λ outcome. outcome ≡ binary_of op a.now b.now) }
{
    Ok(match op {
        BytesBinary::Join => joined(alloc, bytes(a), bytes(b))?,
        BytesBinary::Find => number(place(bytes(a), bytes(b))),
        BytesBinary::Starts => Ok(Value::Bool(begins(bytes(a), bytes(b)))),
        BytesBinary::Byte => number(byte_number(bytes(a), whole(b))),
        BytesBinary::ToInt => number(integer(bytes(a), small(b))),
    })
}

/// So many bytes of others from a place on, or the raise in their place. They are copied.
#[inline]
pub fn compute_sub(
    alloc: Global,
    a: &Value,
    at: &Value,
    count: &Value,
) -> Result<Result<Value, Raise>, NoMemory>
    requires { TakesSub a.now at.now count.now }
    ensures { IfOk result (λ outcome. outcome ≡ sub_of a.now at.now count.now) }
{
    piece(alloc, bytes(a), whole(at), whole(count))
}
