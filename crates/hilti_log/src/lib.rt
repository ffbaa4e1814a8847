//! The texts of what a pool did: the report, and its journal.
#![tactic(auto)]

mod events;
pub mod laws;
mod threads;

pub use events::journal_text;
pub use threads::report;
