//! The numbers that bytes write, and a byte as a number.
ghost use Rattle.std.specs.Prelude.{◌≡◌};
ghost use Rattle.hilti_bytes_ops.specs.Numbers.{byte_at, integer_of, unsigned_of};

use hilti_base::Raise;
use hilti_bytes::{byte, to_int, to_uint};

/// The number that digits of a base write, or `ValueError`.
pub fn integer(bytes: &[u8], base: u8) -> Result<u64, Raise>
    ensures { result ≡ integer_of base bytes.now }
{
    to_int(bytes, base)
}

/// The number of 1 to 8 bytes, the highest first where `is_big`, or `ValueError`.
pub fn unsigned(bytes: &[u8], is_big: bool) -> Result<u64, Raise>
    ensures { result ≡ unsigned_of is_big bytes.now }
{
    to_uint(bytes, is_big)
}

/// The byte at a place as a number, or `IndexError`.
pub fn byte_number(bytes: &[u8], at: u64) -> Result<u64, Raise>
    ensures { result ≡ byte_at bytes.now at }
{
    Ok(u64::from(byte(bytes, at)?))
}
