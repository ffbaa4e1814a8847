//! What the calls of a program do: definitions, and what is so of them.
#![tactic(auto)]

mod ending;
pub mod laws;

pub use ending::Ending;
