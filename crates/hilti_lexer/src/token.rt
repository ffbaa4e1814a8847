use hilti_base::{Blob, Collection, Place};

/// A token and the place of its first byte.
#[derive(Debug, Drop)]
pub struct Token {
    pub place: Place,
    pub kind: TokenKind,
}

/// What a token is.
#[derive(Debug, Drop)]
pub enum TokenKind {
    /// A letter or `_`, then letters, digits and `_`, at most 255 bytes.
    Word(Blob),
    /// A whole number, written in decimal or hexadecimal digits.
    Number(u64),
    /// Whole seconds, and nanoseconds below 1,000,000,000.
    Decimal(u64, u32),
    /// An IPv4 address, as the number of its IPv6 form `::ffff:a.b.c.d`.
    Address(u128),
    /// The first address of a net, and how many bits from the 128-bit top the net keeps.
    Net(u128, u8),
    /// A port's number, and whether it is one of UDP, else of TCP.
    Port(u16, bool),
    /// The bytes of a string, with its escapes resolved.
    Text(Blob),
    /// The bytes of a bytes literal, with its escapes resolved.
    Bytes(Blob),
    /// One of `{ } ( ) < > , : . = @ *` as its byte, or 0 for `::`.
    Mark(u8),
    LineEnd,
}

/// Tokens in the order of their places.
pub type Tokens = Collection<Token>;
