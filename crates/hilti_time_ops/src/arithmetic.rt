//! Sums, differences and products of nanoseconds, each by one equation.
ghost use Rattle.std.specs.Prelude.{◌≡◌, ◌+◌, ◌*◌};
ghost use Rattle.hilti_time_ops.specs.Computing.{in_range};
ghost use Rattle.hilti_time_ops.specs.Computing.{difference as difference_of};

use hilti_base::Raise;
use hilti_clock::{add, mul, sub};

pub fn sum(a: u64, b: u64) -> Result<u64, Raise>
    ensures { result ≡ in_range (a + b) }
{
    add(a, b)
}

pub fn difference(a: u64, b: u64) -> Result<u64, Raise>
    ensures { result ≡ difference_of a b }
{
    sub(a, b)
}

pub fn product(a: u64, b: u64) -> Result<u64, Raise>
    ensures { result ≡ in_range (a * b) }
{
    mul(a, b)
}
