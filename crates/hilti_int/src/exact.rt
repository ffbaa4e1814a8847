//! Operations that raise where their exact result doesn't fit the width.
ghost use Rattle.std.specs.Prelude.{◌≡◌, ◌+◌, ◌*◌, ◌^◌, ◌<◌, ◌↔◌, IsTrue};
ghost use Rattle.hilti_int.specs.Integers.{bits_of, exactly, outcome_of};
ghost use Rattle.hilti_int.specs.declared.operations.IntOp.TheVariants.{SdivExact};

use crate::twos_complement::signed_quotient;
use crate::width::Width;
use hilti_base::Raise;

/// The number itself. `ValueError` comes exactly where it is above the width's greatest number.
pub fn fit_exact(width: Width, a: u64) -> Result<u64, Raise>
    ensures { result ≡ exactly (bits_of width) a }
{
    if a <= width.max() {
        Ok(a)
    } else {
        Err(Raise::ValueError)
    }
}

/// The sum.
pub fn exact_sum(width: Width, a: u64, b: u64) -> Result<u64, Raise>
    ensures { result ≡ exactly (bits_of width) (a + b) }
{
    match a.checked_add(b) {
        Some(sum) => fit_exact(width, sum),
        None => Err(Raise::ValueError),
    }
}

/// The product.
pub fn exact_product(width: Width, a: u64, b: u64) -> Result<u64, Raise>
    ensures { result ≡ exactly (bits_of width) (a * b) }
{
    match a.checked_mul(b) {
        Some(product) => fit_exact(width, product),
        None => Err(Raise::ValueError),
    }
}

/// The number times 2 to `by`.
pub fn exact_shift(width: Width, a: u64, by: u64) -> Result<u64, Raise>
    ensures { result ≡ exactly (bits_of width) (a * 2 ^ by) }
{
    if a == 0 {
        Ok(0)
    } else if by < 64 {
        exact_product(width, a, 1 << by)
    } else {
        Err(Raise::ValueError)
    }
}

/// The quotient toward zero, in two's complement. The least number by -1 has none that fits.
pub fn exact_quotient(width: Width, a: u64, b: u64) -> Result<u64, Raise>
    requires a_fits { a < 2 ^ bits_of width }
    requires b_fits { b < 2 ^ bits_of width }
    ensures { result ≡ outcome_of SdivExact (bits_of width) a b }
{
    if b == 0 {
        Err(Raise::DivisionByZero)
    } else if is_least(width, a) && b == width.max() {
        Err(Raise::ValueError)
    } else {
        Ok(signed_quotient(width, a, b))
    }
}

/// Whether the number is the least in two's complement.
fn is_least(width: Width, a: u64) -> bool
    ensures { IsTrue result ↔ (2 * a ≡ 2 ^ bits_of width) }
{
    a == width.max() / 2 + 1
}
