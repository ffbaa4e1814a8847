//! Linked modules are checked: the program that they are, or their first refusal.
#![tactic(auto)]

mod built;
mod checking;
pub mod laws;
mod scopes;

pub use checking::check;
