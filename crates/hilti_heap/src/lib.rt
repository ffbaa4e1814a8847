//! Objects, and a heap that counts the holders of each object and gives back what nothing holds.
#![tactic(auto)]

mod cells;
mod fault;
mod heap;
pub mod laws;
mod object;
mod shelf;

pub use fault::OpFault;
pub use heap::Heap;
pub use object::Object;
