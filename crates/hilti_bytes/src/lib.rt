//! Bytes as values: pieces, joins, searches, and the numbers that bytes write. Only `join` takes memory.
#![tactic(auto)]

mod fault;
mod numbers;
mod pieces;

pub use fault::BytesFault;
pub use numbers::{to_int, to_uint};
pub use pieces::{byte, find, join, starts, sub};
