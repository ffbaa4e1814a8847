//! The instructions that compute with bytes. They read no object; a join and a piece take memory for their bytes.
#![tactic(auto)]

mod computing;
mod finding;
mod numbers;
mod operands;
mod operations;
mod pieces;

pub use computing::{compute_binary, compute_sub, compute_unary};
pub use operations::{BytesBinary, BytesUnary};
