//! A map that keeps its pairs by rising keys, a stamp with each pair, and a count of its changes, so that an iterator
//! over it can tell whether it is stale.
#![tactic(auto)]

mod keyed;

pub use keyed::Keyed;
