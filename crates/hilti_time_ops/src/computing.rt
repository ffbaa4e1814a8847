ghost use Rattle.std.specs.Prelude.{◌≡◌};
ghost use Rattle.hilti_time_ops.specs.Computing.{TakesOne, TakesTwo, unary_of, binary_of};

use crate::arithmetic::{difference, product, sum};
use crate::operands::{span, time, whole};
use crate::operations::{TimeBinary, TimeUnary};
use hilti_base::Raise;
use hilti_values::Value;

/// What is computed of a value.
#[inline]
pub fn compute_unary(op: TimeUnary, a: &Value) -> Value
    requires { TakesOne op a.now }
    ensures { result ≡ unary_of op a.now }
{
    match op {
        TimeUnary::IntervalMake => Value::Span(whole(a)),
        TimeUnary::TimeMake => Value::Time(whole(a)),
        TimeUnary::IntervalNanos => Value::Int(span(a)),
        TimeUnary::TimeNanos => Value::Int(time(a)),
    }
}

/// What is computed of two values, or the raise in its place.
#[inline]
pub fn compute_binary(op: TimeBinary, a: &Value, b: &Value) -> Result<Value, Raise>
    requires { TakesTwo op a.now b.now }
    ensures { result ≡ binary_of op a.now b.now }
{
    Ok(match op {
        TimeBinary::TimeAdd => Value::Time(sum(time(a), span(b))?),
        TimeBinary::TimeSub => Value::Time(difference(time(a), span(b))?),
        TimeBinary::TimeDiff => Value::Span(difference(time(a), time(b))?),
        TimeBinary::IntervalAdd => Value::Span(sum(span(a), span(b))?),
        TimeBinary::IntervalSub => Value::Span(difference(span(a), span(b))?),
        TimeBinary::IntervalMul => Value::Span(product(span(a), whole(b))?),
    })
}
