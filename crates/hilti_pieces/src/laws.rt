//! Laws over the pieces of tokens.

ghost use Rattle.hilti_pieces.specs.Pieces.{EachByItself};

/// Each token's piece is told by the kinds of the tokens in front of it alone.
pub fn each_by_itself()
    ensures { EachByItself }
{}
