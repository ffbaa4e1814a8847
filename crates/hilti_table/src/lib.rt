//! The table of instructions: for each mnemonic the operands that it takes, what it gives, what it raises, and where a
//! run goes on behind it. What instructions do stands elsewhere.
#![tactic(auto)]

pub mod laws;
mod mnemonics;
mod row;
mod rows;
mod versions;

pub use mnemonics::op_of;
pub use row::{Body, Callee, Family, Flow, Gives, Kind, Part, Plain, Raises, Row, Takes, Test};
pub use rows::row_of;
pub use versions::exact;
