/// What is computed of one whole number, time or interval.
#[derive(Clone, Copy, Debug, PartialEq, Eq)]
pub enum TimeUnary {
    /// The interval of so many nanoseconds.
    IntervalMake,
    /// The time so many nanoseconds after the epoch.
    TimeMake,
    IntervalNanos,
    TimeNanos,
}

/// What is computed of two of them. Where the exact result is below 0, or 2^64 nanoseconds or more, ValueError is
/// raised.
#[derive(Clone, Copy, Debug, PartialEq, Eq)]
pub enum TimeBinary {
    /// The time an interval after a time.
    TimeAdd,
    /// The time an interval before a time.
    TimeSub,
    /// The interval from the second time to the first.
    TimeDiff,
    IntervalAdd,
    IntervalSub,
    /// An interval as many times as a whole number says.
    IntervalMul,
}
