//! Instructions on objects. Each call's answer and the heap after it are what the instruction means over a store that
//! never loses an object, for every store that the heap stands for.
#![tactic(auto)]

mod callables;
mod creation;
mod references;
mod structs;

pub use callables::callable_bind;
pub use creation::create;
pub use references::ref_is_null;
pub use structs::{new_struct, struct_get, struct_is_set, struct_set, struct_unset};
