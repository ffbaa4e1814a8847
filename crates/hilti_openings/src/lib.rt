//! How threads and calls begin, and the lines that calls end with.
#![tactic(auto)]

mod arguments;
mod entries;
mod globals;
pub mod laws;
mod lines;

pub use arguments::tree_value;
pub use entries::{Opened, make_locals, open};
pub use globals::first_globals;
pub use lines::{spent_line, uncaught_line};
