//! What a program does, action by action, in place: over the slots of a stack, globals, and a heap that gives back what
//! nothing holds.
#![tactic(auto)]

mod acting;
mod arguments;
mod calling;
mod control;
mod did;
mod finishing;
mod memory;
mod places;
mod printing;
mod raising;
mod returning;
mod scalars;
mod structs;

pub use acting::act;
pub use did::Did;
pub use memory::Memory;
pub use raising::raised;
pub use returning::returned;
