//! Expected times come from Python's integers.
use hilti_base::Raise;
use hilti_time_ops::{TimeBinary, TimeUnary, compute_binary, compute_unary};
use hilti_values::Value;
use std::test::Fail;

#[test]
fn computes(rt: HostRuntime) -> Result<(), Fail> {
    let (two, whole) = (Value::Span(2_000_000_000), Value::Int(3));
    let (early, late) = (Value::Time(1_000_000_000), Value::Time(3_000_000_000));
    let after = compute_binary(TimeBinary::TimeAdd, &early, &two)?;
    assert!(rt; matches!(after, Value::Time(3_000_000_000)));
    let before = compute_binary(TimeBinary::TimeSub, &late, &two)?;
    assert!(rt; matches!(before, Value::Time(1_000_000_000)));
    let between = compute_binary(TimeBinary::TimeDiff, &late, &early)?;
    assert!(rt; matches!(between, Value::Span(2_000_000_000)));
    let below = compute_binary(TimeBinary::TimeDiff, &early, &late);
    assert!(rt; matches!(below, Err(Raise::ValueError)));
    let sum = compute_binary(TimeBinary::IntervalAdd, &two, &two)?;
    assert!(rt; matches!(sum, Value::Span(4_000_000_000)));
    let none = compute_binary(TimeBinary::IntervalSub, &two, &two)?;
    assert!(rt; matches!(none, Value::Span(0)));
    let product = compute_binary(TimeBinary::IntervalMul, &two, &whole)?;
    assert!(rt; matches!(product, Value::Span(6_000_000_000)));
    let most = Value::Span(18446744073709551615);
    let large = compute_binary(TimeBinary::IntervalMul, &most, &whole);
    assert!(rt; matches!(large, Err(Raise::ValueError)));
    Ok(())
}

#[test]
fn converts(rt: HostRuntime) {
    let (nanos, time, span) = (Value::Int(7), Value::Time(8), Value::Span(9));
    assert!(rt; matches!(compute_unary(TimeUnary::TimeMake, &nanos), Value::Time(7)));
    assert!(rt;
        matches!(
            compute_unary(TimeUnary::IntervalMake, &nanos),
            Value::Span(7)
        )
    );
    assert!(rt; matches!(compute_unary(TimeUnary::TimeNanos, &time), Value::Int(8)));
    assert!(rt;
        matches!(
            compute_unary(TimeUnary::IntervalNanos, &span),
            Value::Int(9)
        )
    );
}
