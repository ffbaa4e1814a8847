//! The values that virtual threads compute with.
#![tactic(auto)]

mod first;
mod literal;
mod reference;
mod shared_bytes;
mod sharing;
mod value;

pub use first::{first_value, first_values};
pub use literal::literal_value;
pub use reference::Reference;
pub use shared_bytes::SharedBytes;
pub use sharing::{share, share_all};
pub use value::{Cursor, Value, Values};
