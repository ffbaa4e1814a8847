//! Laws of the definitions that the contracts of this crate cite. They do nothing when they are called.
ghost use Rattle.std.specs.Prelude.{◌≡◌, ℕ, ◌+◌, ◌*◌, ◌<◌, length, take, drop};
ghost use Rattle.hilti_gen.specs.Generator.{capture_of, record_of};

/// A capture has 24 bytes, and 66 for each of its packets.
pub fn length_of_capture()
    ensures { (seed packets flows : ℕ)
        → length (capture_of seed packets flows) ≡ 24 + 66 * packets }
{}

/// The record of each packet stands at its place.
pub fn record_at_place()
    ensures { (seed packets flows i : ℕ) → i < packets
        → take 66 (drop (24 + 66 * i) (capture_of seed packets flows))
        ≡ record_of seed flows i }
{}
