//! The plain data that every crate of this repository speaks of: names and places, collections that contracts see
//! as lists, want of memory, refusals, raises and the limits of a run; and the readers of digits and of texts around
//! a byte, which every numeral is read by.
#![tactic(auto)]

mod collection;
pub mod laws;
mod limits;
mod memory;
mod names;
mod numeral;
mod refusal;

pub use collection::{Blob, Collection, Names, Numbers};
pub use limits::Limits;
pub use memory::NoMemory;
pub use names::{FnId, Place, Serial, ThreadId};
pub use numeral::{read_digits, read_number, split_at_byte};
pub use refusal::{Raise, Refusal};
