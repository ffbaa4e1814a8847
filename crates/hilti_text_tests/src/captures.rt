//! The bytes of a small capture, written by the format's description.

/// A header in little-endian order, with fractions of microseconds.
pub(crate) const HEADER: [u8; 24] = [
    0xd4, 0xc3, 0xb2, 0xa1, 2, 0, 4, 0, 0, 0, 0, 0, 0, 0, 0, 0, 0, 0, 4, 0, 1, 0, 0, 0,
];

/// A record of the packet `hi`, one second and two microseconds after the epoch.
pub(crate) const RECORD: [u8; 18] = [1, 0, 0, 0, 2, 0, 0, 0, 2, 0, 0, 0, 2, 0, 0, 0, b'h', b'i'];
