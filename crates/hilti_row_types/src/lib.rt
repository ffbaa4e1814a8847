//! What rows ask of types, and the parts of types that they name; copies of types, and whether two are the same.
#![tactic(auto)]

mod copies;
mod parts;
mod passing;
mod same;

pub use copies::{copy_object, copy_parts, copy_type};
pub use parts::{fields_of, iterated, object_of, overlay_fields, part_of, parts_of, rule_of};
pub use passing::{can_be_made, is_int, may_be_null, passes, plain_type};
pub use same::is_same;
