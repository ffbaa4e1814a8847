use crate::reference::Reference;
use crate::shared_bytes::SharedBytes;
use hilti_base::Collection;
use sqlite_items::Boxed;
use std::mem::size_of;

const _: () = prove!(size_of::<Value>() <= 32);

/// Values in order.
pub type Values = Collection<Value>;

/// A value that a virtual thread computes with. It has at most 32 bytes.
#[derive(Debug, Drop)]
pub enum Value {
    Bool(bool),
    /// A whole number modulo 2 to the width of its type.
    Int(u64),
    Text(SharedBytes),
    Bytes(SharedBytes),
    /// An address as a 128-bit number; an IPv4 address is the number of its mapped form `::ffff:a.b.c.d`.
    Addr(u128),
    /// A net: its address, and its length counted from the 128-bit top. In this order a value has 32 bytes.
    Net { length: u8, address: u128 },
    /// A port: its number, and whether it is a UDP port; else it is a TCP port.
    Port(u16, bool),
    /// Nanoseconds since the epoch.
    Time(u64),
    /// Nanoseconds.
    Span(u64),
    /// The place of a constant in its enum.
    Pick(u32),
    Tuple(Values),
    /// No object: of a reference, an iterator or a callable.
    Null,
    /// An object.
    Ref(Reference),
    /// A place in a container.
    Iter(Boxed<Cursor>),
}

/// An iterator: the container that it goes over, how many items are before its place, and the version that the
/// container had when it was made.
#[derive(Debug, Drop)]
pub struct Cursor {
    pub object: Reference,
    pub at: u64,
    pub version: u64,
}
