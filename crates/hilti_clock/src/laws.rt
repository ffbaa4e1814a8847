//! Laws of the definitions that the contracts of this crate cite. They do nothing when they are called.
ghost use Rattle.std.specs.Prelude.{◌≡◌, ℕ, List};
ghost use Rattle.hilti_clock.specs.Numerals.{IsDecimal, IsSeconds};

/// A text is read as one time.
pub fn one_time()
    ensures { (text : List ℕ) (nanos other : ℕ)
        → IsSeconds text nanos → IsSeconds text other → nanos ≡ other }
{}

/// A text with a point is read as one pair of seconds and nanoseconds.
pub fn one_decimal()
    ensures { (text : List ℕ) (seconds nanos other_seconds other_nanos : ℕ)
        → IsDecimal text seconds nanos → IsDecimal text other_seconds other_nanos
        → (seconds ≡ other_seconds) × (nanos ≡ other_nanos) }
{}
