//! One worker over a pool: it runs calls alone, each to its end before another begins.
#![tactic(auto)]

mod alone;
pub mod laws;

pub use alone::run_alone;
