//! Typed programs: parts of which typing holds, with the functions that a run begins with.
#![tactic(auto)]

mod exceptions;
mod names;
mod program;

pub use program::Program;
