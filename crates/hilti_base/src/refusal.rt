ghost use Rattle.std.specs.Prelude.{◌≡◌};
ghost use Rattle.hilti_base.specs.declared.refusal.Refusal.TheVariants as refusals;

use crate::memory::NoMemory;
use crate::names::Place;

/// Why a module text is refused: the code of the first rule that fails, with the place that this rule names.
#[derive(Clone, Copy, Debug, PartialEq, Eq)]
pub enum Refusal {
    At { place: Place, code: u32 },
    NoMemory,
}

impl From<NoMemory> for Refusal {
    ghost from_gives = { λ _ refusal. refusal ≡ refusals.NoMemory };

    fn from(_error: NoMemory) -> Refusal {
        Refusal::NoMemory
    }
}

/// The exceptions that instructions raise by themselves. `Exception`, which stands above them all, is raised by
/// modules alone.
#[derive(Clone, Copy, Debug, PartialEq, Eq)]
pub enum Raise {
    ValueError,
    IndexError,
    DivisionByZero,
    NullReference,
    UnsetField,
    StaleIterator,
}
