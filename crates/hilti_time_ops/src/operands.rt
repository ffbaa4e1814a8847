//! What values are, by their types.
ghost use Rattle.std.specs.Prelude.{◌≡◌};
ghost use Rattle.hilti_time_ops.specs.Computing.{IsInt, IsSpan, IsTime};
ghost use Rattle.hilti_time_ops.specs.Computing.{span_of, time_of, whole_of};

use hilti_values::Value;

/// The whole number that it is.
#[inline]
pub fn whole(value: &Value) -> u64
    requires { IsInt value.now }
    ensures { result ≡ whole_of value.now }
{
    match value {
        Value::Int(n) => *n,
        _ => unreachable!(),
    }
}

/// The nanoseconds since the epoch of the time that it is.
#[inline]
pub fn time(value: &Value) -> u64
    requires { IsTime value.now }
    ensures { result ≡ time_of value.now }
{
    match value {
        Value::Time(nanos) => *nanos,
        _ => unreachable!(),
    }
}

/// The nanoseconds of the interval that it is.
#[inline]
pub fn span(value: &Value) -> u64
    requires { IsSpan value.now }
    ensures { result ≡ span_of value.now }
{
    match value {
        Value::Span(nanos) => *nanos,
        _ => unreachable!(),
    }
}
