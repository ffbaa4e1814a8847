ghost use Rattle.std.specs.Prelude.{◌≡◌};
ghost use Rattle.hilti_reader.specs.declared.stop.Stop.TheVariants as stops;

use hilti_base::NoMemory;
use std::alloc::AllocError;

/// Why reading stopped. The place is where the cursor stands.
#[derive(Clone, Copy, Debug, PartialEq, Eq)]
pub enum Stop {
    /// The grammar allows no such token there.
    Unexpected,
    /// A `<` with 64 others open, where the grammar allows a `<`.
    TooDeep,
    NoMemory,
}

impl From<NoMemory> for Stop {
    ghost from_gives = { λ _ stop. stop ≡ stops.NoMemory };

    fn from(_error: NoMemory) -> Stop {
        Stop::NoMemory
    }
}

impl From<AllocError> for Stop {
    ghost from_gives = { λ _ stop. stop ≡ stops.NoMemory };

    fn from(_error: AllocError) -> Stop {
        Stop::NoMemory
    }
}
