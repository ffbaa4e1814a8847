//! Value trees as keys: their order, and their hash. Nothing here takes memory.
#![tactic(auto)]

mod hashes;
pub mod laws;
mod orders;

pub use hashes::{hash, hash_bytes};
pub use orders::order;
