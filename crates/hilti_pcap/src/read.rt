ghost use Rattle.std.specs.Prelude.{◌≡◌, ℕ, ◌≤◌, ◌++◌, [], length, List, Err, IfOk, IsNone, IfSome};
ghost use Rattle.hilti_pcap.specs.declared.header.Header.{Header};
ghost use Rattle.hilti_pcap.specs.declared.packet.Packet.{Packet};
ghost use Rattle.hilti_pcap.specs.declared.read.LeFault.TheVariants as le_faults;
ghost use Rattle.hilti_pcap.specs.Capture.{HasPackets, IsPlainHeader};
ghost use Rattle.hilti_pcap.specs.Records.{HasRecords};

use crate::header::{Header, read_header};
use crate::packet::{Packet, Packets};
use crate::record::record_of;
use hilti_base::{Blob, NoMemory};
use std::alloc::Global;

/// The most bytes of a capture.
const MOST_BYTES: usize = 1_073_741_824;

/// The most packets of a capture.
const MOST_PACKETS: usize = 1_000_000;

/// Why a capture gives no packets.
#[derive(Clone, Copy, Debug, PartialEq, Eq)]
pub enum LeFault {
    /// It has no form that is read today.
    NotYet,
    NoMemory,
}

impl From<NoMemory> for LeFault {
    ghost from_gives = { λ _ fault. fault ≡ le_faults.NoMemory };

    fn from(_error: NoMemory) -> LeFault {
        LeFault::NoMemory
    }
}

/// The packets of a whole capture in little-endian order with fractions of microseconds. Each packet's bytes are
/// copied once.
///
/// `NotYet` comes for another magic number or version, a header or a record that is cut, a captured length above
/// 262,144, more than 1,000,000 records, and more than 1,073,741,824 bytes. The length and the header are looked at
/// before memory is taken; a fault in a record is met after the records before it have taken theirs.
pub fn read_le(alloc: Global, capture: &[u8]) -> Result<Packets, LeFault>
    ensures packets { IfOk result (λ packets. HasPackets capture.now packets) }
    ensures not_yet { result ≡ Err LeFault.NotYet → (packets : List Packet)
        → ¬ (HasPackets capture.now packets) }
{
    if capture.len() > MOST_BYTES {
        return Err(LeFault::NotYet);
    }
    let Some((header, records)) = split_header(capture) else {
        return Err(LeFault::NotYet);
    };
    read_records(alloc, &header, records)
}

// The packets of records, one after another.
fn read_records(alloc: Global, header: &Header, records: &[u8]) -> Result<Packets, LeFault>
    ensures read { IfOk result (λ packets. HasRecords header.now packets records.now []) }
    ensures few { IfOk result (λ packets. length packets ≤ 1000000) }
    ensures not_yet { result ≡ Err LeFault.NotYet → (packets : List Packet)
        → HasRecords header.now packets records.now [] → ¬ (length packets ≤ 1000000) }
{
    let mut packets = Packets::new(alloc);
    let mut rest = records;
    while !rest.is_empty() {
        if packets.len() == MOST_PACKETS {
            return Err(LeFault::NotYet);
        }
        let Some(record) = record_of(header, rest) else {
            return Err(LeFault::NotYet);
        };
        let bytes = Blob::of(alloc, record.bytes)?;
        packets.push(Packet {
            time: record.time,
            bytes,
        })?;
        rest = record.rest;
    }
    Ok(packets)
}

// The header, and what stands behind it; `None` where no such header stands at the front.
fn split_header(capture: &[u8]) -> Option<(Header, &[u8])>
    ensures none { IsNone result → (header : Header) (front records : List ℕ)
        → capture.now ≡ front ++ records → ¬ (IsPlainHeader header front) }
    ensures some { IfSome result (λ parts. (front : List ℕ)
        × (capture.now ≡ front ++ parts.1.now) × IsPlainHeader parts.0 front) }
{
    let (front, records) = capture.split_first_chunk::<24>()?;
    match read_header(front) {
        Ok(header) if !header.big && !header.nanos => Some((header, records)),
        _ => None,
    }
}
