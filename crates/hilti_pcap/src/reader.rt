ghost use Rattle.std.specs.Prelude.{◌≡◌, ◌+◌, ◌^◌, ◌<◌, length, IfOk, OnOk, OnErr};
ghost use Rattle.hilti_pcap.specs.Reader.{begun, fed, Answers, Finishes};
ghost use Rattle.hilti_pcap.specs.Records.{IsPartial};

use crate::header::Header;
use crate::packet::Packet;
use crate::record::{Front, front_of};
use hilti_base::{Blob, NoMemory};
use std::alloc::Global;
use std::marker::Model;

/// Reads the records of a capture whose bytes come in pieces, the first of them behind the header.
///
/// It holds the bytes that were fed and that belong to no record it has given. They are moved to the front only where at
/// least as many were given, so that reading takes time in proportion to the capture.
#[derive(Debug, Drop)]
pub struct Reader {
    alloc: Global,
    header: Header,
    /// Where the first byte that is held stands in the capture.
    at: u64,
    /// The bytes that are held, behind those of the records that were given.
    bytes: Vec<u8>,
    given: usize,
}

/// What comes next.
#[derive(Debug, Drop)]
pub enum Next {
    Packet(Packet),
    /// The bytes that are held are no whole record.
    More,
    /// The record at this place of the capture has a captured length of more than 262,144.
    TooLong { at: u64, length: u32 },
}

/// How a capture ends.
#[derive(Clone, Copy, Debug, PartialEq, Eq)]
pub enum Ending {
    /// Behind a record, or behind the header.
    Whole,
    /// Inside the record that begins at this place of the capture.
    Cut { at: u64 },
}

impl Model for Reader {
    ghost use Rattle.std.specs.Prelude.{◌+◌, ◌-◌, ◌^◌, ◌<◌, ◌≤◌, length, drop};
    ghost use Rattle.hilti_pcap.specs.Reader.{Held};

    ghost Value = { Held };

    ghost view = { λ a. record {
      header = a.header;
      at = a.at;
      bytes = drop a.given a.bytes.items;
    } };

    ghost invariant = { λ a. (a.given ≤ length a.bytes.items)
        × (a.at + (length a.bytes.items - a.given) < 24 + 2 ^ 63) };
}

impl Reader {
    /// A reader to which nothing was fed yet, behind this header.
    pub fn new(alloc: Global, header: Header) -> Reader
        ensures { result ≡ begun header }
    {
        Reader {
            alloc,
            header,
            at: 24,
            bytes: Vec::new(alloc),
            given: 0,
        }
    }

    /// Takes the next piece of the capture. All pieces have less than 2^63 bytes in all.
    pub fn feed(&mut self, piece: &[u8]) -> Result<(), NoMemory>
        requires { self.old.at + length self.old.bytes + length piece.now < 24 + 2 ^ 63 }
        ensures ok { OnOk result (self.new ≡ fed piece.now self.old) }
        ensures err { OnErr result (self.new ≡ self.old) }
    {
        if self.given >= self.bytes.len() - self.given {
            self.bytes.drain(..self.given);
            self.given = 0;
        }
        self.bytes.extend_from_slice(piece)?;
        Ok(())
    }

    /// The packet of the record at the front of the bytes that are held, which are then those behind it. `TooLong` is
    /// answered again at each later call.
    pub fn next(&mut self) -> Result<Next, NoMemory>
        ensures answer { IfOk result (λ next. Answers self.old next self.new) }
        ensures err { OnErr result (self.new ≡ self.old) }
    {
        match front_of(&self.header, self.held()) {
            Front::Record(record) => {
                let bytes = Blob::of(self.alloc, record.bytes)?;
                let time = record.time;
                let size = 16 + record.bytes.len();
                self.given += size;
                self.at += size as u64;
                Ok(Next::Packet(Packet { time, bytes }))
            }
            Front::Partial => Ok(Next::More),
            Front::TooLong(length) => Ok(Next::TooLong {
                at: self.at,
                length,
            }),
        }
    }

    fn held(&self) -> &[u8]
        ensures { result.now ≡ self.now.bytes }
    {
        &self.bytes[self.given..]
    }

    /// How the capture ends, where `next` answered `More` and nothing was fed after it.
    pub fn finish(&self) -> Ending
        requires { IsPartial self.now.header self.now.bytes }
        ensures { Finishes self.now result }
    {
        if self.given == self.bytes.len() {
            Ending::Whole
        } else {
            Ending::Cut { at: self.at }
        }
    }
}
