//! The token at the front of a text.
ghost use Rattle.std.specs.Prelude.{◌≡◌, ℕ, ◌<◌, ◌≤◌, ◌∷◌, List, length, IfOk};
ghost use Rattle.hilti_lexer.specs.Faults.{IfMissing};
ghost use Rattle.hilti_lexer.specs.Tokens.{Fails, IsBracketToken, IsBytes, IsFaultyBytes, IsFaultyText, IsLongWord, IsNoBracket, IsNoNumeral, IsNumeralToken, IsText, IsWord, Stands};

use crate::beginning::{Beginning, front_begins};
use crate::fault::LexicalFault;
use crate::missing::Missing;
use crate::numeral::{is_too_big, read_brackets, read_numeral};
use crate::runs::{split_brackets, split_numeral, split_word};
use crate::string::read_closed;
use crate::token::TokenKind;
use hilti_base::Blob;
use std::alloc::Global;

/// The most bytes of a word.
const MOST_WORD_BYTES: usize = 255;

/// A token, and what stands behind it.
#[derive(Drop)]
pub struct Front<'a> {
    pub kind: TokenKind,
    pub rest: &'a [u8],
}

/// The longest token at the front of a text, where neither a blank nor a comment stands. It looks at the bytes of the
/// token, and at the one or two behind it.
pub fn read_front(alloc: Global, text: &[u8]) -> Result<Front<'_>, Missing>
    requires some { 0 < length text.now }
    requires short { length text.now ≤ 1048577 }
    ensures stands { IfOk result (λ front. Stands text.now front.kind front.rest.now) }
    ensures fails { IfMissing result (Fails text.now) }
{
    match front_begins(text) {
        Beginning::LineEnd => Ok(Front {
            kind: TokenKind::LineEnd,
            rest: &text[1..],
        }),
        Beginning::Word => read_word(alloc, text),
        Beginning::Numeral => read_number_token(text),
        Beginning::Text => read_text(alloc, text),
        Beginning::Bytes => read_bytes(alloc, text),
        Beginning::Brackets => read_literal(text),
        Beginning::TwoColons => Ok(Front {
            kind: TokenKind::Mark(0),
            rest: &text[2..],
        }),
        Beginning::Mark => Ok(Front {
            kind: TokenKind::Mark(text[0]),
            rest: &text[1..],
        }),
        Beginning::Nothing => Err(Missing::At {
            fault: LexicalFault::BadByte,
            offset: 0,
        }),
    }
}

/// The word at the front.
fn read_word(alloc: Global, text: &[u8]) -> Result<Front<'_>, Missing>
    ensures stands { IfOk result (λ front. IsWord text.now front.kind front.rest.now) }
    ensures fails { IfMissing result (IsLongWord text.now) }
{
    let (word, rest) = split_word(text);
    if word.len() > MOST_WORD_BYTES {
        return Err(Missing::At {
            fault: LexicalFault::LongWord,
            offset: 0,
        });
    }
    let word = Blob::of(alloc, word)?;
    Ok(Front {
        kind: TokenKind::Word(word),
        rest,
    })
}

/// The numeral at the front.
fn read_number_token(text: &[u8]) -> Result<Front<'_>, Missing>
    ensures stands { IfOk result (λ front. IsNumeralToken text.now front.kind front.rest.now) }
    ensures fails { IfMissing result (IsNoNumeral text.now) }
{
    let (numeral, rest) = split_numeral(text);
    if let Some(kind) = read_numeral(numeral) {
        return Ok(Front { kind, rest });
    }
    let fault = if is_too_big(numeral) {
        LexicalFault::NumberTooBig
    } else {
        LexicalFault::BadNumeral
    };
    Err(Missing::At { fault, offset: 0 })
}

/// The bracket literal at the front, which begins with its `[`.
fn read_literal(text: &[u8]) -> Result<Front<'_>, Missing>
    ensures stands { IfOk result (λ front. IsBracketToken text.now front.kind front.rest.now) }
    ensures fails { IfMissing result (IsNoBracket text.now) }
{
    let (literal, rest) = split_brackets(text);
    if let Some(kind) = read_brackets(literal) {
        return Ok(Front { kind, rest });
    }
    Err(Missing::At {
        fault: LexicalFault::BadAddress,
        offset: 0,
    })
}

/// The string at the front, which begins with its `"`.
fn read_text(alloc: Global, text: &[u8]) -> Result<Front<'_>, Missing>
    requires { (inside : List ℕ) × (text.now ≡ 34 ∷ inside) }
    ensures stands { IfOk result (λ front. IsText text.now front.kind front.rest.now) }
    ensures fails { IfMissing result (IsFaultyText text.now) }
{
    let spelled = read_closed(alloc, &text[1..])?;
    Ok(Front {
        kind: TokenKind::Text(spelled.value),
        rest: spelled.rest,
    })
}

/// The bytes literal at the front, which begins with its `b"`.
fn read_bytes(alloc: Global, text: &[u8]) -> Result<Front<'_>, Missing>
    requires opened { (inside : List ℕ) × (text.now ≡ 98 ∷ 34 ∷ inside) }
    requires short { length text.now ≤ 1048577 }
    ensures stands { IfOk result (λ front. IsBytes text.now front.kind front.rest.now) }
    ensures fails { IfMissing result (IsFaultyBytes text.now) }
{
    match read_closed(alloc, &text[2..]) {
        Ok(spelled) => Ok(Front {
            kind: TokenKind::Bytes(spelled.value),
            rest: spelled.rest,
        }),
        Err(Missing::At { fault, offset }) => Err(Missing::At {
            fault,
            offset: 1 + offset,
        }),
        Err(Missing::NoMemory) => Err(Missing::NoMemory),
    }
}
