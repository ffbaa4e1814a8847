//! Rules with priorities, and the rule that a query is answered with: of the rules that match it, the first added of
//! the greatest priority.
#![tactic(auto)]

mod classifier;
pub mod laws;
mod want;

pub use classifier::{Added, Classifier, Got, Rule};
pub use want::{Field, Fields, Want, Wants};
