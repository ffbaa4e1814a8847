//! Expected packets are read off the bytes by the format's description.
use crate::captures::{HEADER, RECORD};
use hilti_base::NoMemory;
use hilti_pcap::{Ending, Header, HeaderFault, Next, Reader, read_header, read_le};
use std::alloc::{AllocError, Global};
use std::test::Fail;

const BIG_NANOS_HEADER: [u8; 24] = [
    0xa1, 0xb2, 0x3c, 0x4d, 0, 2, 0, 4, 0, 0, 0, 0, 0, 0, 0, 0, 0, 4, 0, 0, 0, 0, 0, 1,
];

const PLAIN: Header = Header {
    big: false,
    nanos: false,
    network: 1,
};

const BIG_NANOS: Header = Header {
    big: true,
    nanos: true,
    network: 1,
};

/// A record of two bytes in big-endian order, one second after the epoch and this fraction.
fn big_record(fraction: [u8; 4]) -> [u8; 18] {
    let [a, b, c, d] = fraction;
    [0, 0, 0, 1, a, b, c, d, 0, 0, 0, 2, 0, 0, 0, 2, b'h', b'i']
}

fn joined(alloc: Global, front: &[u8], back: &[u8]) -> Result<Vec<u8>, AllocError> {
    let mut bytes = Vec::from_slice(alloc, front)?;
    bytes.extend_from_slice(back)?;
    Ok(bytes)
}

/// The beginning of a record of so many captured bytes.
fn beginning(captured: u32) -> [u8; 16] {
    let [a, b, c, d] = captured.to_le_bytes();
    [0, 0, 0, 0, 0, 0, 0, 0, a, b, c, d, 0, 0, 0, 0]
}

/// The time of the first packet, and how long it is.
fn first(alloc: Global, header: Header, record: &[u8]) -> Result<Option<(u64, usize)>, NoMemory> {
    let mut reader = Reader::new(alloc, header);
    reader.feed(record)?;
    match reader.next()? {
        Next::Packet(packet) => Ok(Some((packet.time, packet.bytes.len()))),
        _ => Ok(None),
    }
}

#[test]
fn reads_headers(rt: HostRuntime) {
    assert_eq!(rt; read_header(&HEADER), Ok(PLAIN));
    assert_eq!(rt; read_header(&BIG_NANOS_HEADER), Ok(BIG_NANOS));
    let mut minor_3 = HEADER;
    minor_3[6] = 3;
    assert_eq!(rt; read_header(&minor_3), Err(HeaderFault::BadVersion));
    let mut other_magic = HEADER;
    other_magic[0] = 0x4d;
    assert_eq!(rt; read_header(&other_magic), Err(HeaderFault::BadMagic));
}

#[test]
fn reads_times(rt: HostRuntime) -> Result<(), Fail> {
    let alloc = rt.alloc();
    assert_eq!(rt; first(alloc, PLAIN, &RECORD)?, Some((1_000_002_000, 2)));
    let nanos = big_record([0, 0, 0x07, 0xd0]);
    assert_eq!(rt; first(alloc, BIG_NANOS, &nanos)?, Some((1_000_002_000, 2)));
    let second = big_record([0x3b, 0x9a, 0xca, 0]);
    assert_eq!(rt; first(alloc, BIG_NANOS, &second)?, Some((2_000_000_000, 2)));
    Ok(())
}

#[test]
fn reads_in_pieces(rt: HostRuntime) -> Result<(), Fail> {
    let alloc = rt.alloc();
    let mut reader = Reader::new(alloc, PLAIN);
    reader.feed(&RECORD[..7])?;
    reader.feed(&RECORD[7..])?;
    reader.feed(&RECORD[..3])?;
    match reader.next()? {
        Next::Packet(packet) => assert_eq!(rt; packet.bytes.bytes(), b"hi".as_slice()),
        _ => assert!(rt; false),
    }
    match reader.next()? {
        Next::More => assert_eq!(rt; reader.finish(), Ending::Cut { at: 42 }),
        _ => assert!(rt; false),
    }
    Ok(())
}

#[test]
fn finds_long_records(rt: HostRuntime) -> Result<(), Fail> {
    let alloc = rt.alloc();
    let zeros = vec![in alloc; 0u8; 262_144]?;
    let longest = joined(alloc, &beginning(262_144), &zeros)?;
    assert_eq!(rt; first(alloc, PLAIN, &longest)?, Some((0, 262_144)));
    let mut reader = Reader::new(alloc, PLAIN);
    reader.feed(&beginning(262_145))?;
    assert!(rt;
        matches!(
            reader.next()?,
            Next::TooLong {
                at: 24,
                length: 262_145
            }
        )
    );
    Ok(())
}

#[test]
fn reads_whole_captures(rt: HostRuntime) -> Result<(), Fail> {
    let alloc = rt.alloc();
    assert_eq!(rt; read_le(alloc, &HEADER)?.len(), 0);
    let packets = read_le(alloc, &joined(alloc, &HEADER, &RECORD)?)?;
    assert_eq!(rt; packets.len(), 1);
    for packet in packets.as_slice() {
        assert_eq!(rt; packet.time, 1_000_002_000);
        assert_eq!(rt; packet.bytes.bytes(), b"hi".as_slice());
    }
    Ok(())
}
