//! The texts of values. Each function adds a text at the end of `out`, changes nothing else, and fails for want of memory
//! alone; `out` is then only dropped.
#![tactic(auto)]

mod addresses;
pub mod laws;
mod shapes;
mod text;
mod value;

pub use addresses::{address, net, port};
pub use text::{escaped, moment, number};
pub use value::tree;
