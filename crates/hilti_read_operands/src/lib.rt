//! Reads operands.
#![tactic(auto)]

mod operand_list;
mod read_simple;

pub use operand_list::read_operands;
