//! What virtual threads do, whatever runs on them: the machine that runs each call at once, the core that workers
//! move, and the laws that tie them.
#![tactic(auto)]

mod body;
pub mod countdown;
mod event;
pub mod laws;
mod pieces;

pub use body::Body;
pub use event::{Event, Journal};
pub use pieces::{End, Item, Items, Segment};
