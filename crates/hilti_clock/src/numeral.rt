ghost use Rattle.std.specs.Prelude.{ℕ, ◌^◌, ◌<◌, IfSome, IsNone};
ghost use Rattle.hilti_clock.specs.Numerals.{IsDecimal, IsFraction, IsSeconds};

use hilti_base::{read_digits, read_number, split_at_byte};

/// The nanoseconds of a second.
const SECOND: u64 = 1_000_000_000;

/// The most digits of a fraction.
const MOST_DIGITS: usize = 9;

/// The nanoseconds of a numeral that counts seconds: `0` or decimal digits without a leading zero, alone or with a
/// point and 1 to 9 digits behind it. `None` exactly where the text is no such numeral, or its nanoseconds are 2^64 or
/// more.
pub fn read_decimal(text: &[u8]) -> Option<u64>
    ensures some { IfSome result (λ nanos. IsSeconds text.now nanos) }
    ensures none { IsNone result → (nanos : ℕ) → nanos < 2 ^ 64 → ¬ (IsSeconds text.now nanos) }
{
    let Some((seconds, nanos)) = split_decimal(text) else {
        return read_number(text, u64::MAX)?.checked_mul(SECOND);
    };
    let whole = seconds.checked_mul(SECOND)?;
    whole.checked_add(u64::from(nanos))
}

/// The seconds and the nanoseconds of a numeral with a point: `0` or decimal digits without a leading zero, of a number
/// below 2^64, then the point and 1 to 9 digits. `None` exactly for any other text.
pub fn split_decimal(text: &[u8]) -> Option<(u64, u32)>
    ensures some { IfSome result (λ parts. IsDecimal text.now parts.0 parts.1) }
    ensures none { IsNone result → (seconds nanos : ℕ) → ¬ (IsDecimal text.now seconds nanos) }
{
    let (front, fraction) = split_at_byte(text, b'.')?;
    let seconds = read_number(front, u64::MAX)?;
    let nanos = read_fraction(fraction)?;
    Some((seconds, nanos))
}

/// The nanoseconds of the digits behind a point.
fn read_fraction(text: &[u8]) -> Option<u32>
    ensures some { IfSome result (λ nanos. IsFraction text.now nanos) }
    ensures none { IsNone result → (nanos : ℕ) → ¬ (IsFraction text.now nanos) }
{
    if text.len() > MOST_DIGITS {
        return None;
    }
    let Some(value) = read_digits(text, 10) else {
        return None;
    };
    let nanos = value * 10u64.pow((MOST_DIGITS - text.len()) as u32);
    Some(nanos as u32)
}
