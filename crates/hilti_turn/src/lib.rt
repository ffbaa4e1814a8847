//! A lock for one value with a journal. The holders take turns in the order of their tickets, and each of them knows
//! that the journal begins with what it saw when it last had the value, and that its own entries are those it made.
#![tactic(auto)]

mod journalled;
mod pass;
mod plays;
mod turn;
mod view;

pub use journalled::Journalled;
pub use pass::Pass;
pub use turn::Turn;
