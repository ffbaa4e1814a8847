ghost use Rattle.std.specs.Prelude.{◌≡◌};
ghost use Rattle.hilti_resolve.specs.declared.fault.TypeFault.TheVariants as faults;

use hilti_base::{NoMemory, Place};
use std::alloc::AllocError;

/// Why no type stands for a written type.
#[derive(Clone, Copy, Debug, PartialEq, Eq)]
pub enum TypeFault {
    /// The first part that breaks the rules of types stands at this place.
    Broken { place: Place },
    NoMemory,
}

impl From<Place> for TypeFault {
    ghost from_gives = { λ place fault. fault ≡ faults.Broken place };

    fn from(place: Place) -> TypeFault {
        TypeFault::Broken { place }
    }
}

impl From<NoMemory> for TypeFault {
    ghost from_gives = { λ _ fault. fault ≡ faults.NoMemory };

    fn from(_error: NoMemory) -> TypeFault {
        TypeFault::NoMemory
    }
}

impl From<AllocError> for TypeFault {
    ghost from_gives = { λ _ fault. fault ≡ faults.NoMemory };

    fn from(_error: AllocError) -> TypeFault {
        TypeFault::NoMemory
    }
}
