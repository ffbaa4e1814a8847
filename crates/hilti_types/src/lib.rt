//! The types of modules, the types that modules declare, and the mnemonics of instructions.
#![tactic(auto)]

mod declared;
mod depths;
mod equality;
mod keys;
pub mod laws;
mod op;
mod sendability;
mod table;
mod value_type;

pub use declared::{Declared, Member, Members, OverlayField, OverlayFields};
pub use depths::depth;
pub use equality::same;
pub use keys::is_key;
pub use op::Op;
pub use sendability::is_sendable;
pub use table::TypeTable;
pub use value_type::{Inner, ValueType, ValueTypes};
