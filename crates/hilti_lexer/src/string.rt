//! What stands between the quotes of strings and bytes literals.
ghost use Rattle.std.specs.Prelude.{◌≡◌, ℕ, ◌<◌, ◌∷◌, List, length, IfSome, IsNone, IfOk, SomeIff};
ghost use Rattle.hilti_lexer.specs.Faults.{IfMissing};
ghost use Rattle.hilti_lexer.specs.Strings.{AreHex, AreSpelled, FailsInside, IsClosed, NothingSpelled, Spells, byte_of};
ghost use Rattle.hilti_lexer.specs.Strings as strings;

use crate::characters::is_plain;
use crate::fault::LexicalFault;
use crate::missing::Missing;
use hilti_base::{Blob, NoMemory};
use std::alloc::Global;

/// Bytes as they are spelled, and what stands behind them.
#[derive(Drop)]
pub struct Spelled<'a> {
    pub value: Blob,
    pub rest: &'a [u8],
}

/// The bytes between the opening `"` of a string and its closing one, and what stands behind that.
pub fn read_closed(alloc: Global, inside: &[u8]) -> Result<Spelled<'_>, Missing>
    ensures closed { IfOk result (λ spelled. IsClosed inside.now spelled.value spelled.rest.now) }
    ensures fails { IfMissing result (FailsInside inside.now) }
{
    let spelled = read_spelled(alloc, inside)?;
    let offset = 1 + (inside.len() - spelled.rest.len());
    match spelled.rest {
        [b'"', rest @ ..] => Ok(Spelled {
            value: spelled.value,
            rest,
        }),
        [] | [b'\n', ..] => Err(Missing::At {
            fault: LexicalFault::OpenString,
            offset: 0,
        }),
        [b'\\', ..] => Err(Missing::At {
            fault: LexicalFault::BadEscape,
            offset,
        }),
        [..] => Err(Missing::At {
            fault: LexicalFault::BadByte,
            offset,
        }),
    }
}

/// The bytes that are spelled at the front of a text, as many as there are.
fn read_spelled(alloc: Global, inside: &[u8]) -> Result<Spelled<'_>, NoMemory>
    ensures spelled { IfOk result (λ found. AreSpelled found.value inside.now found.rest.now) }
    ensures all { IfOk result (λ found. NothingSpelled found.rest.now) }
{
    let mut value = Blob::new(alloc);
    let mut rest = inside;
    while let Some((byte, behind)) = read_byte(rest) {
        value.push(byte)?;
        rest = behind;
    }
    Ok(Spelled { value, rest })
}

/// The byte that is spelled at the front of a text, and what stands behind it.
fn read_byte(text: &[u8]) -> Option<(u8, &[u8])>
    ensures some { IfSome result (λ found. Spells text.now found.0 found.1.now) }
    ensures shorter { IfSome result (λ found. length found.1.now < length text.now) }
    ensures none { IsNone result → NothingSpelled text.now }
{
    let (first, behind) = text.split_first()?;
    if *first == b'\\' {
        return read_escape(behind);
    }
    if is_plain(*first) {
        Some((*first, behind))
    } else {
        None
    }
}

/// The byte of the escape whose `\` is read, and what stands behind it.
fn read_escape(text: &[u8]) -> Option<(u8, &[u8])>
    ensures some { IfSome result (λ found. Spells (92 ∷ text.now) found.0 found.1.now) }
    ensures shorter { IfSome result (λ found. length found.1.now < length text.now) }
    ensures none { IsNone result → NothingSpelled (92 ∷ text.now) }
{
    let (letter, behind) = text.split_first()?;
    if *letter != b'x' {
        let byte = escaped(*letter)?;
        return Some((byte, behind));
    }
    let (high, behind) = behind.split_first()?;
    let (low, behind) = behind.split_first()?;
    let byte = read_pair(*high, *low)?;
    Some((byte, behind))
}

/// The byte that a letter behind a `\` stands for.
fn escaped(letter: u8) -> Option<u8>
    ensures { result ≡ strings.escaped letter }
{
    match letter {
        b'n' => Some(b'\n'),
        b't' => Some(b'\t'),
        b'\\' => Some(b'\\'),
        b'"' => Some(b'"'),
        _ => None,
    }
}

/// The byte of two hexadecimal digits.
fn read_pair(high: u8, low: u8) -> Option<u8>
    ensures { SomeIff result (AreHex high low) (byte_of high low) }
{
    let high = char::from(high).to_digit(16)?;
    let low = char::from(low).to_digit(16)?;
    Some((16 * high + low) as u8)
}
