//! From the tokens of a text to the pieces that the grammar of modules reads.
#![tactic(auto)]

pub mod laws;
mod piece_list;
#[cfg(test)]
mod piece_tests;
mod surroundings;

pub use piece_list::{end_place, pieces};
