ghost use Rattle.std.specs.Prelude.{◌≡◌};
ghost use Rattle.hilti_outside.specs.Fakes.{counted};
ghost use Rattle.hilti_outside.specs.Faults.{Rose};

/// One more than a count. It stays at `u64::MAX` once it is there.
pub fn one_more(count: u64) -> u64
    ensures value { result ≡ counted count }
    ensures rose { Rose count result }
{
    count.saturating_add(1)
}
