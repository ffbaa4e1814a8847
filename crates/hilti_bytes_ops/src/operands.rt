//! What values are, by their types.
ghost use Rattle.std.specs.Prelude.{◌≡◌};
ghost use Rattle.hilti_bytes_ops.specs.Computing.{IsBytes, IsInt, IsSmallInt};
ghost use Rattle.hilti_bytes_ops.specs.Computing.{bytes_of, whole_of};

use hilti_values::Value;

/// The bytes that it is.
#[inline]
pub fn bytes(value: &Value) -> &[u8]
    requires { IsBytes value.now }
    ensures { result.now ≡ bytes_of value.now }
{
    match value {
        Value::Bytes(bytes) => bytes.bytes(),
        _ => unreachable!(),
    }
}

/// The whole number that it is.
#[inline]
pub fn whole(value: &Value) -> u64
    requires { IsInt value.now }
    ensures { result ≡ whole_of value.now }
{
    match value {
        Value::Int(n) => *n,
        _ => unreachable!(),
    }
}

/// The whole number of 8 bits that it is.
#[inline]
pub fn small(value: &Value) -> u8
    requires { IsSmallInt value.now }
    ensures { result ≡ whole_of value.now }
{
    match value {
        Value::Int(n) => *n as u8,
        _ => unreachable!(),
    }
}
