/// What is computed of one net, port or whole number.
#[derive(Clone, Copy, Debug, PartialEq, Eq)]
pub enum NetworkUnary {
    NetAddr,
    /// The length, less 96 where the net's address is in `::ffff:0:0/96`.
    NetLength,
    /// The TCP port of a 16-bit number.
    PortTcp,
    /// The UDP port of a 16-bit number.
    PortUdp,
    PortNumber,
    PortIsTcp,
}

/// What is computed of an address or a net, and of a number or an address.
#[derive(Clone, Copy, Debug, PartialEq, Eq)]
pub enum NetworkBinary {
    /// An address with so many of its first bits kept: of the last 32 of an address in `::ffff:0:0/96`, and of all 128
    /// of another; above these, ValueError is raised.
    AddrMask,
    /// The net of so many of these bits; above them, ValueError is raised.
    NetMake,
    /// Whether the address is in the net.
    NetContains,
}
