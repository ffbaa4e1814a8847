//! The stack of one virtual thread: the slots of all its frames in one row of values, one frame's behind another's, and
//! a small record for each caller that waits. Contracts see frames, each with its slots, and no places in the row. A
//! call costs no more than making its slots, a return no more than dropping them.
#![tactic(auto)]

mod head;
pub mod laws;
mod stack;

pub use head::{Head, Position};
pub use stack::Stack;
