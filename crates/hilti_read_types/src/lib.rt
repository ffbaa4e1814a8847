//! Reads types.
#![tactic(auto)]

mod read_types;
mod read_words;

pub use read_types::{CONTAINERS, PARAMETRIC, read_container, read_parametric, read_type};
