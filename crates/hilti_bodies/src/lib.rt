//! What the bodies of functions and hooks say: their lines are cut into blocks at the labels, and read as typed blocks with
//! their handlers, or as the first refusal with its code and place.
#![tactic(auto)]

mod blocks;
mod codes;
mod handlers;
mod instructions;
mod labels;
pub mod laws;

pub use blocks::read_body;
