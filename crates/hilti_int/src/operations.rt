ghost use Rattle.std.specs.Prelude.{◌≡◌, ◌^◌, ◌<◌, ◌↔◌, IfOk, IsTrue, Err};
ghost use Rattle.hilti_int.specs.Integers.{bits_of, divides, outcome_of, overflows};

use crate::exact::{exact_product, exact_quotient, exact_shift, exact_sum};
use crate::twos_complement::{
    difference, shift_left, shift_right, signed_quotient, signed_remainder, signed_shift,
};
use crate::width::{Width, fit};
use hilti_base::Raise;

/// The operations on two whole numbers of one width. `Sdiv`, `Smod`, `Sshr` and `SdivExact` read them in two's
/// complement. Those that end with `Exact` raise where the exact result doesn't fit the width, and the others wrap.
#[derive(Clone, Copy, Debug, PartialEq, Eq)]
pub enum IntOp {
    Add,
    Sub,
    Mul,
    Div,
    Mod,
    Sdiv,
    Smod,
    And,
    Or,
    Xor,
    Shl,
    Shr,
    Sshr,
    AddExact,
    SubExact,
    MulExact,
    ShlExact,
    SdivExact,
}

/// What an operation gives. A division or remainder by 0 raises `DivisionByZero`, and an exact operation whose result
/// doesn't fit the width `ValueError`; nothing else raises.
pub fn apply(op: IntOp, width: Width, a: u64, b: u64) -> Result<u64, Raise>
    requires a_fits { a < 2 ^ bits_of width }
    requires b_fits { b < 2 ^ bits_of width }
    ensures outcome { result ≡ outcome_of op (bits_of width) a b }
    ensures division { result ≡ Err Raise.DivisionByZero ↔ (IsTrue (divides op) × (b ≡ 0)) }
    ensures overflow { result ≡ Err Raise.ValueError ↔ IsTrue (overflows op (bits_of width) a b) }
    ensures fits { IfOk result (λ n. n < 2 ^ bits_of width) }
{
    match op {
        IntOp::Add => Ok(fit(width, a.wrapping_add(b))),
        IntOp::Sub => Ok(difference(width, a, b)),
        IntOp::Mul => Ok(fit(width, a.wrapping_mul(b))),
        IntOp::Div => a.checked_div(b).ok_or(Raise::DivisionByZero),
        IntOp::Mod => a.checked_rem(b).ok_or(Raise::DivisionByZero),
        IntOp::Sdiv if b == 0 => Err(Raise::DivisionByZero),
        IntOp::Sdiv => Ok(signed_quotient(width, a, b)),
        IntOp::Smod if b == 0 => Err(Raise::DivisionByZero),
        IntOp::Smod => Ok(signed_remainder(width, a, b)),
        IntOp::And => Ok(a & b),
        IntOp::Or => Ok(a | b),
        IntOp::Xor => Ok(a ^ b),
        IntOp::Shl => Ok(shift_left(width, a, b)),
        IntOp::Shr => Ok(shift_right(a, b)),
        IntOp::Sshr => Ok(signed_shift(width, a, b)),
        IntOp::AddExact => exact_sum(width, a, b),
        IntOp::SubExact => a.checked_sub(b).ok_or(Raise::ValueError),
        IntOp::MulExact => exact_product(width, a, b),
        IntOp::ShlExact => exact_shift(width, a, b),
        IntOp::SdivExact => exact_quotient(width, a, b),
    }
}
