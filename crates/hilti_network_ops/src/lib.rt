//! The instructions that compute with addresses, nets and ports. They read no object and take no memory.
#![tactic(auto)]

mod computing;
mod operands;
mod operations;

pub use computing::{compute_binary, compute_unary};
pub use operations::{NetworkBinary, NetworkUnary};
