ghost use Rattle.std.specs.Prelude.{◌≡◌};
ghost use Rattle.hilti_bytes.specs.declared.fault.BytesFault.TheVariants as faults;

use hilti_base::{NoMemory, Raise};

/// Why a join gives no bytes.
#[derive(Clone, Copy, Debug, PartialEq, Eq)]
pub enum BytesFault {
    Raise(Raise),
    NoMemory,
}

impl From<NoMemory> for BytesFault {
    ghost from_gives = { λ _ fault. fault ≡ faults.NoMemory };

    fn from(_error: NoMemory) -> BytesFault {
        BytesFault::NoMemory
    }
}
