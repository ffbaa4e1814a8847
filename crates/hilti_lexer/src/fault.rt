ghost use Rattle.std.specs.Prelude.{◌≡◌};
ghost use Rattle.hilti_lexer.specs.Faults.{code_of};

/// Why no token begins at a place of a text.
#[derive(Clone, Copy, Debug, PartialEq, Eq)]
pub enum LexicalFault {
    /// A byte begins no token, or may not stand in a string.
    BadByte,
    /// A numeral has none of the forms of numerals.
    BadNumeral,
    /// A numeral is digits without a leading zero above 2^64 - 1.
    NumberTooBig,
    /// The line or the text ends inside a string.
    OpenString,
    /// A `\` begins no escape.
    BadEscape,
    /// A word has more than 255 bytes.
    LongWord,
    /// A `[` begins no bracket literal of an address or a net.
    BadAddress,
}

impl LexicalFault {
    /// The code of its refusal.
    pub fn code(self) -> u32
        ensures { result ≡ code_of self }
    {
        match self {
            LexicalFault::BadByte => 1,
            LexicalFault::BadNumeral => 2,
            LexicalFault::NumberTooBig => 3,
            LexicalFault::OpenString => 4,
            LexicalFault::BadEscape => 5,
            LexicalFault::LongWord => 6,
            LexicalFault::BadAddress => 7,
        }
    }
}
