use crate::kind::Kind;
use hilti_lexer::Token;

/// A token as the grammar sees it.
#[derive(Debug, Drop)]
pub struct Piece {
    pub token: Token,
    pub kind: Kind,
}
