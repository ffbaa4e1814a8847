//! Packets of capture files in the pcap file format, version 2.4: what `tcpdump -w` writes, in either byte order, with
//! fractions of microseconds or nanoseconds. A capture may be read whole, or in whatever pieces it comes.
//!
//! The format is that of the manual page `pcap-savefile(5)`.
#![tactic(auto)]

mod header;
pub mod laws;
mod packet;
mod read;
mod reader;
mod record;

pub use header::{Header, HeaderFault, read_header};
pub use packet::{Packet, Packets};
pub use read::{LeFault, read_le};
pub use reader::{Ending, Next, Reader};
