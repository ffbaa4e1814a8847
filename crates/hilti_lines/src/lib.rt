//! What the lines of bodies say: each written line is read as the typed instruction that it stands for, or as its first
//! refusal with its code and place.
#![tactic(auto)]

mod codes;
mod counts;
mod gives;
pub mod laws;
mod line;
mod mnemonic;
mod stands;
mod target;

pub use line::read_line;
