//! The data that virtual threads send to each other: trees of values, and calls on them.
#![tactic(auto)]

mod call;
mod copies;
mod sizes;
mod tree;

pub use call::{Call, Calls};
pub use copies::{copy, copy_call};
pub use sizes::size;
pub use tree::{Forest, Tree};
