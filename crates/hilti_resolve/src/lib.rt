//! What written types, literals of globals and forms of overlay fields say, over what the names in them mean; and the
//! first refusal of each that says nothing.
#![tactic(auto)]

mod container;
mod depth;
mod fault;
mod form;
mod inner_value;
mod literal;
mod literal_value;
mod rules;
mod same;
mod unknown;
mod value;
mod written;

pub use container::read_container;
pub use depth::capped_depth;
pub use fault::TypeFault;
pub use form::{FieldForm, field_form};
pub use literal::check_literal;
pub use literal_value::{literal_type, read_literal};
pub use same::same_type;
pub use unknown::first_unknown;
pub use value::value_of;
pub use written::read_type;
