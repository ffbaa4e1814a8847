//! The instructions that compute with times and intervals. They read no object and take no memory.
#![tactic(auto)]

mod arithmetic;
mod computing;
mod operands;
mod operations;

pub use computing::{compute_binary, compute_unary};
pub use operations::{TimeBinary, TimeUnary};
