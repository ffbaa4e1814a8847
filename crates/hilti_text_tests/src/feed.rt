//! Expected calls are read off the bytes by the format's description.
use crate::captures::{HEADER, RECORD};
use hilti_base::{FnId, NoMemory, Numbers};
use hilti_feed::{
    CaptureCalls, CaptureEnd, CaptureFeed, FeedFault, Outcome, capture_calls, open_capture,
};
use hilti_feeder::Feeder;
use hilti_outside::MemFiles;
use hilti_tree::{Call, Tree};
use std::alloc::Global;
use std::test::Fail;

const PACKET: FnId = FnId { n: 3 };

const DONE: FnId = FnId { n: 5 };

/// A file of these bytes, of which a read gives 7 at most. One call fails: the opening is call 1, and there is no call 0.
fn files_of(alloc: Global, bytes: &[u8], failing: u64) -> Result<MemFiles, NoMemory> {
    let mut fails = Numbers::new(alloc);
    fails.push(failing)?;
    let mut files = MemFiles::new(alloc, 7, fails);
    files.put_file(b"c", bytes)?;
    Ok(files)
}

/// Why a capture of these bytes isn't begun.
fn fault_of(alloc: Global, bytes: &[u8], failing: u64) -> Result<Option<FeedFault>, NoMemory> {
    let mut files = files_of(alloc, bytes, failing)?;
    Ok(CaptureFeed::begin(alloc, &mut files, b"c", PACKET, None).err())
}

fn is_packet(call: &Call) -> bool {
    call.function == PACKET
        && matches!(call.args.get(0), Some(Tree::Time(1_000_002_000)))
        && matches!(call.args.get(1), Some(Tree::Bytes(bytes)) if bytes.bytes() == b"hi".as_slice())
}

#[test]
fn gives_the_calls_of_a_cut_capture(rt: HostRuntime) -> Result<(), Fail> {
    let alloc = rt.alloc();
    let mut bytes = Vec::from_slice(alloc, &HEADER)?;
    bytes.extend_from_slice(&RECORD)?;
    bytes.extend_from_slice(&RECORD[..3])?;
    let mut files = files_of(alloc, &bytes, 0)?;
    match CaptureFeed::begin(alloc, &mut files, b"c", PACKET, Some(DONE)) {
        Ok(mut feed) => {
            assert_eq!(rt; feed.outcome(), Outcome::Reading);
            assert!(rt; matches!(feed.next()?, Some(call) if is_packet(&call)));
            assert!(rt; matches!(feed.next()?, Some(call) if call.function == DONE));
            assert!(rt; feed.next()?.is_none());
            assert_eq!(rt; feed.outcome(), Outcome::Cut { at: 42 });
        }
        Err(_) => assert!(rt; false),
    }
    Ok(())
}

#[test]
fn goes_to_the_end(rt: HostRuntime) -> Result<(), Fail> {
    let alloc = rt.alloc();
    let mut files = files_of(alloc, &HEADER, 0)?;
    match CaptureFeed::begin(alloc, &mut files, b"c", PACKET, Some(DONE)) {
        Ok(mut feed) => {
            assert!(rt; feed.rest()?);
            assert_eq!(rt; feed.outcome(), Outcome::Whole);
        }
        Err(_) => assert!(rt; false),
    }
    Ok(())
}

#[test]
fn refuses_headers(rt: HostRuntime) -> Result<(), Fail> {
    let alloc = rt.alloc();
    let short = FeedFault::Bad { at: 23, code: 1 };
    assert_eq!(rt; fault_of(alloc, &HEADER[..23], 0)?, Some(short));
    let mut minor_3 = HEADER;
    minor_3[6] = 3;
    let other = FeedFault::Bad { at: 4, code: 3 };
    assert_eq!(rt; fault_of(alloc, &minor_3, 0)?, Some(other));
    Ok(())
}

#[test]
fn tells_failed_reads(rt: HostRuntime) -> Result<(), Fail> {
    let alloc = rt.alloc();
    assert_eq!(rt; fault_of(alloc, &HEADER, 1)?, Some(FeedFault::ReadFault));
    assert_eq!(rt; fault_of(alloc, &HEADER, 3)?, Some(FeedFault::ReadFault));
    let mut bytes = Vec::from_slice(alloc, &HEADER)?;
    bytes.extend_from_slice(&RECORD)?;
    let mut files = files_of(alloc, &bytes, 8)?;
    match open_capture(alloc, &mut files, b"c", PACKET, Some(DONE)) {
        Ok(capture) => {
            let mut feed = CaptureFeed::of(alloc, &mut files, capture);
            assert!(rt; matches!(feed.next()?, Some(call) if is_packet(&call)));
            assert!(rt; feed.next()?.is_none());
            assert_eq!(rt; feed.outcome(), Outcome::ReadFault);
            assert!(rt; feed.next()?.is_none());
        }
        Err(_) => assert!(rt; false),
    }
    Ok(())
}

#[test]
fn reads_a_cut_capture_whole(rt: HostRuntime) -> Result<(), Fail> {
    let alloc = rt.alloc();
    let mut bytes = Vec::from_slice(alloc, &HEADER)?;
    bytes.extend_from_slice(&RECORD)?;
    bytes.extend_from_slice(&RECORD[..3])?;
    let mut files = files_of(alloc, &bytes, 0)?;
    match capture_calls(alloc, &mut files, b"c", PACKET, Some(DONE)) {
        Ok(CaptureCalls { calls, end }) => {
            assert_eq!(rt; calls.len(), 2);
            assert!(rt; matches!(calls.get(0), Some(call) if is_packet(call)));
            assert!(rt; matches!(calls.get(1), Some(call) if call.function == DONE));
            assert_eq!(rt; end, CaptureEnd::Cut { at: 42 });
        }
        Err(_) => assert!(rt; false),
    }
    Ok(())
}
