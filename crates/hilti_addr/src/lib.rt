//! Addresses of 128 bits, nets and ports: masks, containment, and their texts. An IPv4 address is kept as the number of
//! its IPv6 form, `::ffff:a.b.c.d`. Nothing here takes memory.
#![tactic(auto)]

mod brackets;
pub mod laws;
mod net;
mod port;
mod text;

pub use brackets::{read_bracket_addr, read_bracket_net};
pub use net::{Net, bits_above, contains, is_mapped, make_net, mask, v4};
pub use port::Port;
pub use text::{read_addr, read_dotted_addr, read_dotted_net, read_net, read_port};
