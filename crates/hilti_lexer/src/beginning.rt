ghost use Rattle.std.specs.Prelude.{◌≡◌};
ghost use Rattle.hilti_lexer.specs.Beginnings.{beginning_of, byte_begins};

use crate::characters::{begins_word, is_mark};

/// What the bytes at the front of a text can begin.
#[derive(Clone, Copy, Debug, PartialEq, Eq)]
pub enum Beginning {
    LineEnd,
    Word,
    Numeral,
    Text,
    Bytes,
    /// A literal of an address or a net.
    Brackets,
    TwoColons,
    Mark,
    /// No token, no blank and no comment: the byte has no place outside a string.
    Nothing,
}

/// What the text begins with. It looks at two bytes at most.
pub fn front_begins(text: &[u8]) -> Beginning
    ensures { result ≡ beginning_of text.now }
{
    match text {
        [b'b', b'"', ..] => Beginning::Bytes,
        [b':', b':', ..] => Beginning::TwoColons,
        [byte, ..] => of_byte(*byte),
        [] => Beginning::Nothing,
    }
}

/// What a byte begins, whatever follows it.
fn of_byte(byte: u8) -> Beginning
    ensures { result ≡ byte_begins byte }
{
    if byte == b'\n' {
        Beginning::LineEnd
    } else if begins_word(byte) {
        Beginning::Word
    } else if byte.is_ascii_digit() {
        Beginning::Numeral
    } else if byte == b'"' {
        Beginning::Text
    } else if byte == b'[' {
        Beginning::Brackets
    } else if is_mark(byte) {
        Beginning::Mark
    } else {
        Beginning::Nothing
    }
}
