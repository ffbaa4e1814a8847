//! Kinds of tokens: what the grammar of modules tells them apart by.
#![tactic(auto)]

mod keywords;
mod kind;
mod piece;

pub use keywords::kind_of;
pub use kind::Kind;
pub use piece::Piece;
