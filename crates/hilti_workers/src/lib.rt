//! What workers do with a pool behind a turn lock: each takes a thread, runs one segment of it outside the lock, and
//! puts it back, until no more is to come.
#![tactic(auto)]

mod feeding;
mod section;
mod turns;

pub use feeding::feed_all;
pub use turns::{Turned, turn, work};
