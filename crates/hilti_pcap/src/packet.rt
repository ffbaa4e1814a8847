use hilti_base::{Blob, Collection};

/// A captured packet.
#[derive(Debug, Drop)]
pub struct Packet {
    /// When it was captured: nanoseconds since 1970.
    pub time: u64,
    /// Its captured bytes, at most 262,144.
    pub bytes: Blob,
}

/// Packets in the order of their capture.
pub type Packets = Collection<Packet>;
