//! What linked modules declare, as the parts of a program: its types, globals with the values that they begin with,
//! exceptions, hooks with their bodies in the order of running, and functions.
#![tactic(auto)]

mod declaring;
mod defaults;
mod exceptions;
mod functions;
mod globals;
mod hooks;
pub mod laws;
mod sites;
mod turns;

pub use declaring::declare;
pub use sites::{body_at, item_at, number_at};
