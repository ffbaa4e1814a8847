//! The words of the command line, without the program's own name: a command, its options and the names of its files.
#![tactic(auto)]

mod command;
pub mod laws;
mod name;
mod options;
mod reader;
mod setting;
mod words;

pub use command::{Command, WordsFault};
pub use words::read_words;
