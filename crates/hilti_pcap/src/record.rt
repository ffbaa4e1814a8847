ghost use Rattle.std.specs.Prelude.{◌≡◌, ◌+◌, ◌*◌, ◌^◌, ◌<◌, ◌++◌, length, IsNone, IfSome};
ghost use Rattle.hilti_pcap.specs.Headers.{number};
ghost use Rattle.hilti_pcap.specs.Records.{Begins, HasRecord, EndsRecords, nanoseconds};
ghost use Rattle.hilti_pcap.specs.Fronts.{IsFront, packet_of};

use crate::header::{Header, number_of};

/// The most captured bytes of a packet.
const MOST_CAPTURED: u32 = 262_144;

/// The four numbers that a record begins with.
#[derive(Clone, Copy)]
pub struct Fields {
    pub seconds: u32,
    pub fraction: u32,
    pub captured: u32,
    pub original: u32,
}

/// A record at the front of some bytes, and what follows it.
#[derive(Clone, Copy)]
pub struct Record<'a> {
    /// Nanoseconds since 1970.
    pub time: u64,
    pub bytes: &'a [u8],
    pub rest: &'a [u8],
}

/// What stands at the front of some bytes.
#[derive(Clone, Copy)]
pub enum Front<'a> {
    Record(Record<'a>),
    /// Less than a whole record.
    Partial,
    /// The beginning of a record whose captured length, which is given, is too large.
    TooLong(u32),
}

/// What stands at the front of some bytes of a capture.
pub fn front_of<'a>(header: &Header, bytes: &'a [u8]) -> Front<'a>
    ensures { IsFront header.now bytes.now result }
{
    let Some((fields, behind)) = split_fields(header.big, bytes) else {
        return Front::Partial;
    };
    if fields.captured > MOST_CAPTURED {
        return Front::TooLong(fields.captured);
    }
    let Some((bytes, rest)) = behind.split_at_checked(fields.captured as usize) else {
        return Front::Partial;
    };
    let time = time_of(header.nanos, &fields);
    Front::Record(Record { time, bytes, rest })
}

/// The record at the front; `None` where none stands there.
pub fn record_of<'a>(header: &Header, bytes: &'a [u8]) -> Option<Record<'a>>
    ensures some { IfSome result (λ found. HasRecord header.now (packet_of found)
        bytes.now found.rest.now) }
    ensures none { IsNone result → EndsRecords header.now bytes.now }
{
    match front_of(header, bytes) {
        Front::Record(record) => Some(record),
        Front::Partial => None,
        Front::TooLong(_) => None,
    }
}

/// Nanoseconds since 1970. A fraction of a whole second or more is added as it is.
fn time_of(nanos: bool, fields: &Fields) -> u64
    ensures { result ≡ fields.now.seconds * 1000000000 + nanoseconds nanos fields.now.fraction }
{
    let seconds = u64::from(fields.seconds);
    let fraction = u64::from(fields.fraction);
    let nanoseconds = if nanos { fraction } else { fraction * 1_000 };
    seconds * 1_000_000_000 + nanoseconds
}

/// The four numbers at the front, and what follows them; `None` where fewer bytes are there.
fn split_fields(big: bool, bytes: &[u8]) -> Option<(Fields, &[u8])>
    ensures none { IsNone result → length bytes.now < 16 }
    ensures some { IfSome result (λ parts. Begins big parts.0 bytes.now parts.1.now) }
{
    let (seconds, rest) = split_u32(big, bytes)?;
    let (fraction, rest) = split_u32(big, rest)?;
    let (captured, rest) = split_u32(big, rest)?;
    let (original, rest) = split_u32(big, rest)?;
    let fields = Fields {
        seconds,
        fraction,
        captured,
        original,
    };
    Some((fields, rest))
}

/// The number in the four bytes at the front, and what follows them; `None` where fewer bytes are there.
fn split_u32(big: bool, bytes: &[u8]) -> Option<(u32, &[u8])>
    ensures none { IsNone result → length bytes.now < 4 }
    ensures some { IfSome result (λ part. bytes.now ≡ number big part.0 ++ part.1.now) }
    ensures fits { IfSome result (λ part. part.0 < 2 ^ 32) }
{
    let (digits, rest) = bytes.split_at_checked(4)?;
    Some((number_of(big, digits), rest))
}
