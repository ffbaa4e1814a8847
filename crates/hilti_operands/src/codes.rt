//! Refusals of operands.
ghost use Rattle.std.specs.Prelude.{◌≡◌};
ghost use Rattle.hilti_base.specs.declared.refusal.Refusal.TheVariants.{At};

use hilti_base::{Place, Refusal};

/// The code of a name that means nothing.
pub const UNKNOWN: u32 = 21;

/// The code of an operand of another kind or type than is asked.
pub const BAD_KIND: u32 = 30;

/// The code of a wrong number of operands, or of those in parentheses.
pub const BAD_COUNT: u32 = 31;

/// The code of an operand that is printed or sent, of a type that isn't sendable.
pub const NOT_SENDABLE: u32 = 35;

/// The code of a number, a time or an interval that doesn't fit.
pub const LITERAL_RANGE: u32 = 36;

/// A refusal with this code.
pub fn refusal(place: Place, code: u32) -> Refusal
    ensures { result ≡ At place code }
{
    Refusal::At { place, code }
}
