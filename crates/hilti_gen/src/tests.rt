// Expected bytes come from a Python script that follows the rules of the generator.
use super::*;
use std::test::Fail;

/// The capture of two packets of three flows that the seed 1 makes: its header, and two records.
const TWO_PACKETS: [u8; 156] = [
    0xd4, 0xc3, 0xb2, 0xa1, 2, 0, 4, 0, 0, 0, 0, 0, 0, 0, 0, 0, 0, 0, 4, 0, 1, 0, 0, 0, 0, 0x4e,
    0x72, 0x53, 0, 0, 0, 0, 0x32, 0, 0, 0, 0x32, 0, 0, 0, 2, 0, 0, 0, 0, 1, 2, 0, 0, 0, 0, 2, 8, 0,
    0x45, 0, 0, 0x24, 0, 0, 0, 0, 0x40, 0x11, 0, 0, 0x0a, 0, 0, 2, 0x0a, 1, 0, 1, 4, 2, 0, 0x35, 0,
    0x10, 0, 0, 0, 0, 0, 0, 0, 0, 0, 0, 0, 0x4e, 0x72, 0x53, 0xe8, 3, 0, 0, 0x32, 0, 0, 0, 0x32, 0,
    0, 0, 2, 0, 0, 0, 0, 1, 2, 0, 0, 0, 0, 2, 8, 0, 0x45, 0, 0, 0x24, 0, 0, 0, 0, 0x40, 0x11, 0, 0,
    0x0a, 0, 0, 0, 0x0a, 1, 0, 1, 4, 0, 0, 0x35, 0, 0x10, 0, 0, 0, 0, 0, 0, 0, 0, 0, 1,
];

/// The record of packet 1,499 of 257 flows that the greatest seed makes.
const LATE_RECORD: [u8; 66] = [
    1, 0x4e, 0x72, 0x53, 0x38, 0x9d, 7, 0, 0x32, 0, 0, 0, 0x32, 0, 0, 0, 2, 0, 0, 0, 0, 1, 2, 0, 0,
    0, 0, 2, 8, 0, 0x45, 0, 0, 0x24, 0, 0, 0, 0, 0x40, 0x11, 0, 0, 0x0a, 0, 0, 0x50, 0x0a, 1, 0, 1,
    4, 0x50, 0, 0x35, 0, 0x10, 0, 0, 0, 0, 0, 0, 0, 0, 5, 0xdb,
];

#[test]
fn makes_two_packets(rt: HostRuntime) -> Result<(), Fail> {
    let blob = capture(rt.alloc(), 1, 2, 3)?;
    assert_eq!(rt; blob.bytes(), TWO_PACKETS.as_slice());
    Ok(())
}

#[test]
fn makes_many_packets(rt: HostRuntime) -> Result<(), Fail> {
    let blob = capture(rt.alloc(), u64::MAX, 1500, 257)?;
    assert_eq!(rt; blob.len(), 99_024);
    assert!(rt; blob.bytes().ends_with(&LATE_RECORD));
    Ok(())
}

#[test]
fn writes_the_dispatcher(rt: HostRuntime) -> Result<(), Fail> {
    let text = dispatcher(rt.alloc())?;
    assert_eq!(rt; text.len(), 404);
    assert!(rt; text.bytes().starts_with(b"module Main\n"));
    Ok(())
}
