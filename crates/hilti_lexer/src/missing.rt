ghost use Rattle.std.specs.Prelude.{◌≡◌};
ghost use Rattle.hilti_lexer.specs.declared.missing.Missing.TheVariants as variants;

use crate::fault::LexicalFault;
use hilti_base::NoMemory;

/// Why a token is missing at the front of a text.
#[derive(Clone, Copy, Debug, PartialEq, Eq)]
pub enum Missing {
    /// The fault, and how many bytes its place is from the front.
    At { fault: LexicalFault, offset: usize },
    NoMemory,
}

impl From<NoMemory> for Missing {
    ghost from_gives = { λ _ missing. missing ≡ variants.NoMemory };

    fn from(_error: NoMemory) -> Missing {
        Missing::NoMemory
    }
}
