//! The bytes of tokens.
ghost use Rattle.std.specs.Prelude.{◌≡◌};
ghost use Rattle.hilti_lexer.specs.Characters as characters;

/// The marks of one byte.
const MARKS: &[u8] = b"{}()<>,:.=@*";

/// Whether the byte is a space, a tab or a carriage return.
pub fn is_blank(byte: u8) -> bool
    ensures { result ≡ characters.is_blank byte }
{
    byte == b' ' || byte == b'\t' || byte == b'\r'
}

/// Whether the byte is a letter or `_`.
pub fn begins_word(byte: u8) -> bool
    ensures { result ≡ characters.begins_word byte }
{
    byte.is_ascii_alphabetic() || byte == b'_'
}

/// Whether the byte is a letter, a digit or `_`.
pub fn is_word_byte(byte: u8) -> bool
    ensures { result ≡ characters.is_word_byte byte }
{
    byte.is_ascii_alphanumeric() || byte == b'_'
}

/// Whether the byte is a letter, a digit, `.` or `/`.
pub fn is_numeral_byte(byte: u8) -> bool
    ensures { result ≡ characters.is_numeral_byte byte }
{
    byte.is_ascii_alphanumeric() || byte == b'.' || byte == b'/'
}

/// Whether the byte is a hexadecimal digit or `:`.
pub fn is_group_byte(byte: u8) -> bool
    ensures { result ≡ characters.is_group_byte byte }
{
    byte.is_ascii_hexdigit() || byte == b':'
}

/// Whether the byte is a mark.
pub fn is_mark(byte: u8) -> bool
    ensures { result ≡ characters.is_mark byte }
{
    MARKS.contains(&byte)
}

/// Whether the byte stands for itself in a string.
pub fn is_plain(byte: u8) -> bool
    ensures { result ≡ characters.is_plain byte }
{
    let shown = byte == b'\t' || (b' '..=b'~').contains(&byte) || byte >= 0x80;
    shown && byte != b'"' && byte != b'\\'
}
