//! Instructions as they are run: rows, each of the shape of what it does, with its operands as places of values.
#![tactic(auto)]

mod instructions;
mod names;
mod numbers;
mod row;
mod sources;
mod structs;

pub use instructions::resolve;
pub use row::{Binary, Printed, PrintedItems, Row, Source, Sources, StructRow, Unary};
