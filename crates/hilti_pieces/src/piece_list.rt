//! From tokens to the pieces that the grammar of modules reads.
ghost use Rattle.std.specs.Prelude.{◌≡◌, ◌+◌, ◌<◌, ◌^◌, length, IfOk};
ghost use Rattle.std.specs.List.{All};
ghost use Rattle.hilti_kinds.specs.Kinds.{IsPiece};
ghost use Rattle.hilti_pieces.specs.Ends.{end_of};
ghost use Rattle.hilti_pieces.specs.Pieces.{pieces_of};

use crate::surroundings::Surroundings;
use hilti_base::{NoMemory, Place};
use hilti_kinds::{Piece, kind_of};
use hilti_lexer::{Token, TokenKind, Tokens};
use std::alloc::Global;
use std::collections::VecDeque;

/// The pieces of a text with these tokens, which ends there. Each token that stands is moved. It
/// takes time in proportion to the tokens.
pub fn pieces(alloc: Global, tokens: Tokens, end: Place) -> Result<VecDeque<Piece>, NoMemory>
    ensures pieces { IfOk result (λ pieces. pieces.items ≡ pieces_of tokens end) }
    ensures kinds { IfOk result (λ pieces. All IsPiece pieces.items) }
{
    let mut tokens = tokens;
    tokens.push(Token {
        place: end,
        kind: TokenKind::LineEnd,
    })?;
    let mut left = VecDeque::from_vec(tokens.into_vec());
    let mut pieces = VecDeque::new(alloc);
    let mut surroundings = Surroundings::new();
    while let Some(token) = left.pop_front() {
        let kind = kind_of(&token.kind);
        if let Some(kind) = surroundings.piece_kind(kind) {
            pieces.push_back(Piece { token, kind })?;
        }
        surroundings = surroundings.behind(kind);
    }
    Ok(pieces)
}

/// The place where a text ends.
pub fn end_place(file: u32, text: &[u8]) -> Place
    requires { length text.now + 1 < 2 ^ 32 }
    ensures { result ≡ end_of file text.now }
{
    let mut place = Place {
        file,
        line: 1,
        column: 1,
    };
    for byte in text {
        if *byte == b'\n' {
            place.line += 1;
            place.column = 1;
        } else {
            place.column += 1;
        }
    }
    place
}
