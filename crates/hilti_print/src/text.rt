ghost use Rattle.std.specs.Prelude.{◌≡◌, ◌++◌, ◌<◌, OnOk, decimal};
ghost use Rattle.std.specs.Char.{digit_char};
ghost use Rattle.hilti_print.specs.Texts.{moment_text, escaped_text, byte_text};
ghost use Rattle.hilti_print.specs.Texts.{nine_digits_of};

use hilti_base::{Blob, NoMemory};
use itoa::Buffer;

const ZEROS: &[u8; 9] = b"000000000";

/// A number in decimal.
pub fn number(out: &mut Blob, n: u64) -> Result<(), NoMemory>
    ensures { OnOk result (out.new ≡ out.old ++ decimal n) }
{
    let mut buffer = Buffer::new();
    out.append(buffer.format(n).as_bytes())
}

/// Nanoseconds below 1,000,000,000, in nine digits.
fn nine_digits(out: &mut Blob, nanos: u64) -> Result<(), NoMemory>
    requires { nanos < 1000000000 }
    ensures { OnOk result (out.new ≡ out.old ++ nine_digits_of nanos) }
{
    let mut buffer = Buffer::new();
    let digits = buffer.format(nanos).as_bytes();
    let zeros = &ZEROS[..];
    out.append(&zeros[digits.len()..])?;
    out.append(digits)
}

/// A time or an interval of so many nanoseconds: seconds, a dot and nine digits.
#[tactic(auto, unfolding(crate::specs::Texts::moment_text))]
pub fn moment(out: &mut Blob, nanos: u64) -> Result<(), NoMemory>
    ensures { OnOk result (out.new ≡ out.old ++ moment_text nanos) }
{
    number(out, nanos / 1_000_000_000)?;
    out.append(b".")?;
    nine_digits(out, nanos % 1_000_000_000)
}

/// A byte as it is, or its escape.
#[tactic(auto, unfolding(crate::specs::Texts::byte_text))]
fn escaped_byte(out: &mut Blob, byte: u8) -> Result<(), NoMemory>
    ensures { OnOk result (out.new ≡ out.old ++ byte_text byte) }
{
    if byte == b'"' || byte == b'\\' {
        out.append(&[b'\\', byte])
    } else if byte < 0x20 || 0x7e < byte {
        out.append(&[b'\\', b'x', hex_digit(byte / 16), hex_digit(byte % 16)])
    } else {
        out.push(byte)
    }
}

/// The digit of a value below 16, in lower case.
pub fn hex_digit(value: u8) -> u8
    requires { value < 16 }
    ensures { result ≡ digit_char value }
{
    if value < 10 {
        b'0' + value
    } else {
        b'a' + (value - 10)
    }
}

/// Bytes with their escapes.
pub fn escaped(out: &mut Blob, bytes: &[u8]) -> Result<(), NoMemory>
    ensures { OnOk result (out.new ≡ out.old ++ escaped_text bytes.now) }
{
    for byte in bytes {
        escaped_byte(out, *byte)?;
    }
    Ok(())
}
