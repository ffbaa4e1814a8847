//! Times and intervals, which are whole nanoseconds: exact sums, differences and products, and numerals of seconds.
//! Nothing here takes memory.
#![tactic(auto)]

mod arithmetic;
pub mod laws;
mod numeral;

pub use arithmetic::{add, mul, sub};
pub use numeral::{read_decimal, split_decimal};
