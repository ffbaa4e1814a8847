//! The tokens of a whole text.
ghost use Rattle.std.specs.Prelude.{◌≡◌, ℕ, ◌+◌, ◌<◌, ◌≤◌, ◌^◌, [], length, IfOk, IfSome, IsNone};
ghost use Rattle.hilti_lexer.specs.Faults.{IfRefused};
ghost use Rattle.hilti_lexer.specs.Readings.{HasRoom, IsNext, IsRefusedAt, Lexes, Refuses};
ghost use Rattle.hilti_lexer.specs.Readings as readings;

use crate::front::{Front, read_front};
use crate::missing::Missing;
use crate::runs::behind_gap;
use crate::token::{Token, TokenKind, Tokens};
use hilti_base::{Place, Refusal};
use std::alloc::Global;

/// A token, and the place and the text behind it.
#[derive(Drop)]
struct Next<'a> {
    token: Token,
    behind: Place,
    rest: &'a [u8],
}

/// The tokens of a text, each with its place; or the code and the place of the fault where the first is missing. It
/// takes time in proportion to the text. `NoMemory` can come at any token.
pub fn lex(alloc: Global, file: u32, text: &[u8]) -> Result<Tokens, Refusal>
    requires { length text.now ≤ 1048576 }
    ensures tokens { IfOk result (λ tokens. Lexes file text.now tokens) }
    ensures refusal { IfRefused result (Refuses file text.now) }
{
    let mut tokens = Tokens::new(alloc);
    let mut at = Place {
        file,
        line: 1,
        column: 1,
    };
    let mut rest = text;
    while let Some(next) = read_next(alloc, at, rest)? {
        tokens.push(next.token)?;
        at = next.behind;
        rest = next.rest;
    }
    Ok(tokens)
}

/// The next token of a text that begins at a place; `None` where only blanks and a comment are left.
fn read_next(alloc: Global, at: Place, text: &[u8]) -> Result<Option<Next<'_>>, Refusal>
    requires { HasRoom at text.now }
    ensures none { IfOk result (λ found. IsNone found → readings.behind_gap text.now ≡ []) }
    ensures next { IfOk result (λ found. IfSome found (λ next.
        IsNext at text.now next.token next.behind next.rest.now)) }
    ensures room { IfOk result (λ found. IfSome found (λ next. HasRoom next.behind next.rest.now)) }
    ensures shorter { IfOk result (λ found. IfSome found (λ next.
        length next.rest.now < length text.now)) }
    ensures missing { IfRefused result (IsRefusedAt at text.now) }
{
    let front = behind_gap(text);
    if front.is_empty() {
        return Ok(None);
    }
    let place = further(at, text.len() - front.len());
    match read_front(alloc, front) {
        Ok(Front { kind, rest }) => {
            let behind = place_behind(place, &kind, front.len() - rest.len());
            let token = Token { place, kind };
            Ok(Some(Next {
                token,
                behind,
                rest,
            }))
        }
        Err(Missing::At { fault, offset }) => Err(Refusal::At {
            place: further(place, offset),
            code: fault.code(),
        }),
        Err(Missing::NoMemory) => Err(Refusal::NoMemory),
    }
}

/// The place of so many bytes further on the same line.
fn further(place: Place, bytes: usize) -> Place
    requires { place.column + bytes < 2 ^ 32 }
    ensures { result ≡ readings.further place bytes }
{
    Place {
        column: place.column + bytes as u32,
        ..place
    }
}

/// The place behind a token of so many bytes.
fn place_behind(place: Place, kind: &TokenKind, bytes: usize) -> Place
    requires line { place.line + 1 < 2 ^ 32 }
    requires column { place.column + bytes < 2 ^ 32 }
    ensures { result ≡ readings.place_behind place kind.now bytes }
{
    match kind {
        TokenKind::LineEnd => Place {
            line: place.line + 1,
            column: 1,
            ..place
        },
        _ => further(place, bytes),
    }
}
