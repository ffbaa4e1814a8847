use hilti_base::{Blob, Collection, Numbers};

/// Trees in order.
pub type Forest = Collection<Tree>;

/// A value of a sendable type without sharing: references are replaced by the content of their objects.
#[derive(Debug, Drop)]
pub enum Tree {
    Bool(bool),
    /// A whole number modulo 2 to the width of its type.
    Int(u64),
    Text(Blob),
    Bytes(Blob),
    /// An address as a 128-bit number; an IPv4 address is the number of its mapped form `::ffff:a.b.c.d`.
    Addr(u128),
    /// A net: its address, and its length counted from the 128-bit top.
    Net(u128, u8),
    /// A port: its number, and whether it is a UDP port; else it is a TCP port.
    Port(u16, bool),
    /// Nanoseconds since the epoch.
    Time(u64),
    /// Nanoseconds.
    Span(u64),
    /// The place of a constant in its enum.
    Pick(u32),
    Null,
    /// A field that was never set, and in `Rules` the part of a rule that matches everything.
    Unset,
    Tuple(Forest),
    List(Forest),
    Vector(Forest),
    /// The keys of a set by rising keys.
    Set(Forest),
    /// The keys of a map by rising keys, and the value of each.
    Map(Forest, Forest),
    /// The fields of a struct.
    Fields(Forest),
    /// The rules of a classifier in order of adding: one tuple, one priority and one value each.
    Rules {
        fields: Forest,
        priorities: Numbers,
        values: Forest,
        compiled: bool,
    },
}
