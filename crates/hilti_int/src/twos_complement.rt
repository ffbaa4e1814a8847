ghost use Rattle.std.specs.Prelude.{◌≡◌, ◌≢◌, ◌*◌, ◌^◌, ◌%◌, ◌/◌, ◌<◌, ◌≤◌, ◌↔◌, IsTrue};
ghost use Rattle.std.specs.Prelude.{unsigned_abs, pos, ◌-ℤ◌};
ghost use Rattle.hilti_int.specs.Integers.{bits_of, signed, value_of, wrapped};
ghost use Rattle.hilti_int.specs.declared.operations.IntOp.TheVariants.{Sdiv, Smod, Sshr};

use crate::width::{Width, fit};

/// Whether the number is negative in two's complement.
pub fn is_negative(width: Width, a: u64) -> bool
    ensures { IsTrue result ↔ (2 ^ bits_of width ≤ 2 * a) }
{
    a > width.max() / 2
}

/// The difference modulo 2 to the width's bits.
pub fn difference(width: Width, a: u64, b: u64) -> u64
    requires { b < 2 ^ bits_of width }
    ensures { result ≡ wrapped (bits_of width) (pos a -ℤ pos b) }
{
    fit(width, a.wrapping_sub(b))
}

/// How far the number is from 0 in two's complement.
pub fn magnitude(width: Width, a: u64) -> u64
    requires { a < 2 ^ bits_of width }
    ensures { result ≡ unsigned_abs (signed (bits_of width) a) }
{
    if is_negative(width, a) {
        difference(width, 0, a)
    } else {
        a
    }
}

/// The quotient toward zero. The least number by -1 is the least number.
pub fn signed_quotient(width: Width, a: u64, b: u64) -> u64
    requires a_fits { a < 2 ^ bits_of width }
    requires b_fits { b < 2 ^ bits_of width }
    requires not_zero { b ≢ 0 }
    ensures { result ≡ value_of Sdiv (bits_of width) a b }
{
    let quotient = magnitude(width, a) / magnitude(width, b);
    if is_negative(width, a) == is_negative(width, b) {
        quotient
    } else {
        difference(width, 0, quotient)
    }
}

/// The remainder of that quotient, with the sign of `a`.
pub fn signed_remainder(width: Width, a: u64, b: u64) -> u64
    requires a_fits { a < 2 ^ bits_of width }
    requires b_fits { b < 2 ^ bits_of width }
    requires not_zero { b ≢ 0 }
    ensures { result ≡ value_of Smod (bits_of width) a b }
{
    let remainder = magnitude(width, a) % magnitude(width, b);
    if is_negative(width, a) {
        difference(width, 0, remainder)
    } else {
        remainder
    }
}

/// The number shifted to the right, filled with its sign; all sign bits where `by` is the width's bits or more.
pub fn signed_shift(width: Width, a: u64, by: u64) -> u64
    requires { a < 2 ^ bits_of width }
    ensures { result ≡ value_of Sshr (bits_of width) a by }
{
    if is_negative(width, a) {
        let ones = width.max();
        ones - shift_right(ones - a, by)
    } else {
        shift_right(a, by)
    }
}

/// The number shifted to the right, filled with zeros; 0 where `by` is 64 or more.
pub fn shift_right(a: u64, by: u64) -> u64
    ensures { result ≡ a / 2 ^ by }
{
    if by < 64 { a >> by } else { 0 }
}

/// The number shifted to the left; 0 where `by` is the width's bits or more.
pub fn shift_left(width: Width, a: u64, by: u64) -> u64
    ensures { result ≡ (a * 2 ^ by) % 2 ^ bits_of width }
{
    if by < 64 { fit(width, a << by) } else { 0 }
}
