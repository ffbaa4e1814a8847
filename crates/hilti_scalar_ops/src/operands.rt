//! What values are, by their types.
ghost use Rattle.std.specs.Prelude.{◌≡◌};
ghost use Rattle.hilti_scalar_ops.specs.Computing.{IsBool, IsInt, truth_of, whole_of};

use hilti_values::Value;

/// The truth value that it is.
#[inline]
pub fn truth(value: &Value) -> bool
    requires { IsBool value.now }
    ensures { result ≡ truth_of value.now }
{
    match value {
        Value::Bool(truth) => *truth,
        _ => unreachable!(),
    }
}

/// The whole number that it is.
#[inline]
pub fn whole(value: &Value) -> u64
    requires { IsInt value.now }
    ensures { result ≡ whole_of value.now }
{
    match value {
        Value::Int(n) => *n,
        _ => unreachable!(),
    }
}
