ghost use Rattle.std.specs.Prelude.{◌^◌, ◌<◌, ◌↔◌, IsTrue, ◌<ℤ◌};
ghost use Rattle.hilti_int.specs.Integers.{bits_of, signed, Holds};

use crate::twos_complement::is_negative;
use crate::width::Width;

/// The comparisons of two whole numbers of one width. Those that begin with an S read them in two's complement.
#[derive(Clone, Copy, Debug, PartialEq, Eq)]
pub enum IntCmp {
    Lt,
    Gt,
    Leq,
    Geq,
    Slt,
    Sgt,
}

/// Whether a comparison holds.
pub fn compare(op: IntCmp, width: Width, a: u64, b: u64) -> bool
    requires a_fits { a < 2 ^ bits_of width }
    requires b_fits { b < 2 ^ bits_of width }
    ensures { IsTrue result ↔ Holds op (bits_of width) a b }
{
    match op {
        IntCmp::Lt => a < b,
        IntCmp::Gt => a > b,
        IntCmp::Leq => a <= b,
        IntCmp::Geq => a >= b,
        IntCmp::Slt => signed_less(width, a, b),
        IntCmp::Sgt => signed_less(width, b, a),
    }
}

// Whether the first is below the second in two's complement.
fn signed_less(width: Width, a: u64, b: u64) -> bool
    requires a_fits { a < 2 ^ bits_of width }
    requires b_fits { b < 2 ^ bits_of width }
    ensures { IsTrue result ↔ (signed (bits_of width) a <ℤ signed (bits_of width) b) }
{
    match (is_negative(width, a), is_negative(width, b)) {
        (true, false) => true,
        (false, true) => false,
        _ => a < b,
    }
}
