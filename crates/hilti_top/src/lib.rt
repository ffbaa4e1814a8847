//! The commands of the program, from the words of the command line to the bytes that are written.
#![tactic(auto)]

mod call;
pub mod laws;
mod modules;
mod output;
mod run;
mod status;

pub use call::hilti_call;
pub use status::Status;
