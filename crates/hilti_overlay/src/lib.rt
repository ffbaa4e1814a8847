//! Fields of packet bytes: whole numbers and ranges of their bits, addresses, ports and ranges of bytes. Nothing here
//! takes memory.
#![tactic(auto)]

mod field;
pub mod laws;
mod unpack;

pub use field::{Form, PastEnd, Scalar, Unpack};
pub use unpack::get;
