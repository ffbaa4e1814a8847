//! What names mean in a set of modules.
#![tactic(auto)]

mod declarations;
mod first_places;
mod meaning;
mod scope;

pub use declarations::{Declarations, Modules, can_be_numbered};
pub use first_places::FirstPlaces;
pub use meaning::Meaning;
pub use scope::{Scope, is_built_in};
