//! The code of a program: its instructions as they are run.
#![tactic(auto)]

mod code;
pub mod laws;

pub use code::{BlockRows, Code, FunctionRows};
