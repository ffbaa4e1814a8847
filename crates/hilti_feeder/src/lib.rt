//! Where the calls of a run come from: a source that gives one call after another, may fail, and can be taken to its
//! end without its calls being made.
#![tactic(auto)]

mod feeder;

pub use feeder::Feeder;
