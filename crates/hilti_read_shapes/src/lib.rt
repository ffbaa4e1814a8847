//! Reads parameters, and what declared types are.
#![tactic(auto)]

mod arguments;
mod read_forms;
mod read_parameters;
mod read_shapes;

pub use arguments::read_arguments;
pub use read_parameters::read_parameter;
pub use read_shapes::read_shape;
