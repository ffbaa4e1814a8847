ghost use Rattle.std.specs.Prelude.{◌+◌, ◌≤◌, length};

use hilti_pcap::Reader;

/// How a capture ended, as far as it was read.
#[derive(Clone, Copy, Debug, PartialEq, Eq)]
pub enum Outcome {
    /// It isn't read to its end yet.
    Reading,
    /// Behind its last record.
    Whole,
    /// Inside the record that begins at this place.
    Cut { at: u64 },
    /// A record at this place is too long (code 4), or the capture is too large (code 5).
    Bad { at: u64, code: u32 },
    /// A read failed.
    ReadFault,
}

/// What is left of a capture behind the records that were given.
#[derive(Debug, Drop)]
pub struct Tail {
    pub reader: Reader,
    /// How many more bytes the capture may have.
    pub room: u64,
    pub source: Source,
    ghost within: { reader.at + length reader.bytes + room ≤ 1073741824 },
}

/// Whether more of the file is to be read.
#[derive(Clone, Copy, Debug, PartialEq, Eq)]
pub enum Source {
    Open,
    /// It was read to its end.
    Ended,
    /// It has more bytes than a capture may have, and the reader was fed those that it may.
    Larger,
}
