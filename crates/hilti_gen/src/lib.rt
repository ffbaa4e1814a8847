//! A capture that is made of a seed, and a module to run over it: input for tests and measurements, the same on every
//! machine.
#![tactic(auto)]

mod frame;
mod generator;
pub mod laws;
mod module;
#[cfg(test)]
mod tests;

pub use generator::capture;
pub use module::dispatcher;
