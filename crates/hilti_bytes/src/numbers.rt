ghost use Rattle.std.specs.Prelude.{◌≤◌, length, IsOkUnless};
ghost use Rattle.std.specs.Result.{OkIff};
ghost use Rattle.std.specs.Str.Parse.{digits_value};
ghost use Rattle.hilti_bytes.specs.Values.{IsInteger, number_of};

use byteorder::{BigEndian, ByteOrder, LittleEndian};
use hilti_base::{Raise, read_digits};

/// The number that digits of base 10 or 16 write, letters in either case. `ValueError` exactly where the base is
/// another, there is no digit, a byte is no digit of the base, or the number is 2^64 or more.
pub fn to_int(b: &[u8], base: u8) -> Result<u64, Raise>
    ensures exact { OkIff result (IsInteger base b.now) (digits_value base b.now) }
    ensures raise { IsOkUnless result Raise.ValueError }
{
    if base != 10 && base != 16 {
        return Err(Raise::ValueError);
    }
    let Some(value) = read_digits(b, u32::from(base)) else {
        return Err(Raise::ValueError);
    };
    Ok(value)
}

/// The number whose 1 to 8 bytes these are, the highest first where `big`, else the lowest first. `ValueError` exactly
/// where they are none or more than 8.
pub fn to_uint(b: &[u8], big: bool) -> Result<u64, Raise>
    ensures exact { OkIff result ((1 ≤ length b.now) × (length b.now ≤ 8)) (number_of big b.now) }
    ensures raise { IsOkUnless result Raise.ValueError }
{
    if b.is_empty() || b.len() > 8 {
        Err(Raise::ValueError)
    } else if big {
        Ok(BigEndian::read_uint(b, b.len()))
    } else {
        Ok(LittleEndian::read_uint(b, b.len()))
    }
}
