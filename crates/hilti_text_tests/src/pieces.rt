//! The pieces of a few tokens.
use hilti_base::{Blob, Place};
use hilti_kinds::Kind;
use hilti_lexer::{Token, TokenKind, Tokens};
use hilti_pieces::{end_place, pieces};
use std::test::Fail;

/// A token in the first line of the first module.
fn token(column: u32, kind: TokenKind) -> Token {
    let place = Place {
        file: 0,
        line: 1,
        column,
    };
    Token { place, kind }
}

/// `type T = enum { A`, a line end, and `}` behind it.
#[test]
fn makes_pieces(rt: HostRuntime) -> Result<(), Fail> {
    let alloc = rt.alloc();
    let mut tokens = Tokens::new(alloc);
    for (column, word) in [(1, "type"), (6, "T")] {
        tokens.push(token(column, TokenKind::Word(Blob::of(alloc, word.as_bytes())?)))?;
    }
    tokens.push(token(8, TokenKind::Mark(b'=')))?;
    tokens.push(token(10, TokenKind::Word(Blob::of(alloc, b"enum")?)))?;
    tokens.push(token(15, TokenKind::Mark(b'{')))?;
    tokens.push(token(17, TokenKind::Word(Blob::of(alloc, b"A")?)))?;
    tokens.push(token(18, TokenKind::LineEnd))?;
    tokens.push(token(19, TokenKind::Mark(b'}')))?;
    let end = end_place(0, b"type T = enum { A\n}");
    assert_eq!(rt; (end.line, end.column), (2, 2));
    let expected = [
        (Kind::Type, 1),
        (Kind::Word, 6),
        (Kind::Equals, 8),
        (Kind::Enum, 10),
        (Kind::OpenBrace, 15),
        (Kind::Word, 17),
        (Kind::CloseBrace, 19),
        (Kind::LineEnd, 2),
    ];
    let mut made = pieces(alloc, tokens, end)?;
    for (kind, column) in expected {
        let Some(piece) = made.pop_front() else {
            panic!(rt; "a piece is missing");
        };
        assert_eq!(rt; (piece.kind, piece.token.place.column), (kind, column));
    }
    assert!(rt; made.is_empty());
    Ok(())
}
