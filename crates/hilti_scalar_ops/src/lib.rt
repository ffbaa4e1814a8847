//! The instructions that compute a value of one or two values, and read no object.
#![tactic(auto)]

mod comparing;
mod computing;
mod operands;

pub use computing::{Made, compute_binary, compute_unary};
pub use operands::{truth, whole};
