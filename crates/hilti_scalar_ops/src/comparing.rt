//! Comparisons of whole numbers.
ghost use Rattle.std.specs.Prelude.{◌≡◌, ◌<◌, ◌^◌};
ghost use Rattle.hilti_int.specs.Integers.{bits_of};
ghost use Rattle.hilti_scalar_ops.specs.Computing.{holds as holds_of};

use hilti_int::{IntCmp, Width, compare};

/// Whether a comparison of two numbers of a width holds.
#[inline]
pub fn holds(op: IntCmp, width: Width, a: u64, b: u64) -> bool
    requires a_fits { a < 2 ^ bits_of width }
    requires b_fits { b < 2 ^ bits_of width }
    ensures { result ≡ holds_of op (bits_of width) a b }
{
    compare(op, width, a, b)
}
