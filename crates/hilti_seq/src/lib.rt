//! A list that counts its changes, so that an iterator over it can tell whether it is stale.
#![tactic(auto)]

mod seq;

pub use seq::Seq;
