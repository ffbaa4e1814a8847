//! Whole numbers of 8, 16, 32 and 64 bits: arithmetic modulo 2 to their bits and exact arithmetic, division, bits,
//! shifts and order, of unsigned numbers and of numbers in two's complement. Nothing here takes memory.
#![tactic(auto)]

mod comparisons;
mod exact;
pub mod laws;
mod operations;
mod twos_complement;
mod width;

pub use comparisons::{IntCmp, compare};
pub use exact::fit_exact;
pub use operations::{IntOp, apply};
pub use width::{Width, fit};
