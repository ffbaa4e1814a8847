ghost use Rattle.std.specs.Prelude.{◌+◌, ◌-◌, ◌*◌, ◌^◌, ◌<◌, ◌≤◌, IsOkUnless};
ghost use Rattle.std.specs.Result.{OkIff};

use hilti_base::Raise;

/// The sum; `ValueError` exactly where it is 2^64 or more.
pub fn add(a: u64, b: u64) -> Result<u64, Raise>
    ensures exact { OkIff result (a + b < 2 ^ 64) (a + b) }
    ensures raise { IsOkUnless result Raise.ValueError }
{
    a.checked_add(b).ok_or(Raise::ValueError)
}

/// The difference; `ValueError` exactly where it is below 0.
pub fn sub(a: u64, b: u64) -> Result<u64, Raise>
    ensures exact { OkIff result (b ≤ a) (a - b) }
    ensures raise { IsOkUnless result Raise.ValueError }
{
    a.checked_sub(b).ok_or(Raise::ValueError)
}

/// The product; `ValueError` exactly where it is 2^64 or more.
pub fn mul(a: u64, b: u64) -> Result<u64, Raise>
    ensures exact { OkIff result (a * b < 2 ^ 64) (a * b) }
    ensures raise { IsOkUnless result Raise.ValueError }
{
    a.checked_mul(b).ok_or(Raise::ValueError)
}
