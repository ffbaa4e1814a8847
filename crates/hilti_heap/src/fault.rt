ghost use Rattle.std.specs.Prelude.{◌≡◌};
ghost use Rattle.hilti_heap.specs.declared.fault.OpFault.TheVariants as faults;

use hilti_base::{NoMemory, Raise};

/// Why an instruction isn't done.
#[derive(Debug, Drop)]
pub enum OpFault {
    Raise(Raise),
    NoMemory,
}

impl From<NoMemory> for OpFault {
    ghost from_gives = { λ _ fault. fault ≡ faults.NoMemory };

    fn from(_error: NoMemory) -> OpFault {
        OpFault::NoMemory
    }
}
