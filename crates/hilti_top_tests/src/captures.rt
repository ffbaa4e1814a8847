//! What `one` tells of captures, of options and of faults of the outside.
use crate::fixtures::{Command, HEADER, MODULE, Outside, RECORD, REPORT, SURE, run};
use hilti_top::Status;
use std::test::Fail;

/// The same as `HEADER`, in big-endian order with fractions of nanoseconds.
const HEADER_OF_NANOSECONDS: &[u8] = &[
    0xa1, 0xb2, 0x3c, 0x4d, 0, 2, 0, 4, 0, 0, 0, 0, 0, 0, 0, 0, 0, 4, 0, 0, 0, 0, 0, 1,
];

const RECORD_OF_NANOSECONDS: &[u8] = &[
    0, 0, 0, 1, 0, 0, 7, 0xd0, 0, 0, 0, 2, 0, 0, 0, 2, b'h', b'i',
];

/// Its fraction is a whole second.
const RECORD_OF_A_SECOND: &[u8] = &[
    0, 0, 0, 1, 0x3b, 0x9a, 0xca, 0, 0, 0, 0, 2, 0, 0, 0, 2, b'h', b'i',
];

/// One byte less than a header.
const CUT_HEADER: &[u8] = &[
    0xd4, 0xc3, 0xb2, 0xa1, 2, 0, 4, 0, 0, 0, 0, 0, 0, 0, 0, 0, 0, 0, 4, 0, 1, 0, 0,
];

/// A header of minor version 3.
const HEADER_OF_VERSION_3: &[u8] = &[
    0xd4, 0xc3, 0xb2, 0xa1, 2, 0, 3, 0, 0, 0, 0, 0, 0, 0, 0, 0, 0, 0, 4, 0, 1, 0, 0, 0,
];

/// A captured length of 262,145, with nothing behind the record's header.
const LONG_RECORD: &[u8] = &[1, 0, 0, 0, 2, 0, 0, 0, 1, 0, 4, 0, 2, 0, 0, 0];

/// A jump that never ends, which no handler ends.
const ENDLESS: &[u8] = b"module Main
void packet(time t, bytes d) {
  local string e
  jump @a
@a catch Exception @b e:
  jump @a
@b:
  return.void
}
";

#[test]
fn reads_captures(rt: HostRuntime) -> Result<(), Fail> {
    let rows: [(&[&[u8]], Status, &[u8]); 8] = [
        (&[HEADER], Status::Done, b"total: 0 calls, 0 segments\n"),
        (&[HEADER, RECORD], Status::Done, REPORT),
        (
            &[HEADER_OF_NANOSECONDS, RECORD_OF_NANOSECONDS],
            Status::Done,
            REPORT,
        ),
        (
            &[HEADER_OF_NANOSECONDS, RECORD_OF_A_SECOND],
            Status::Done,
            b"thread 0: 1 calls\n  2.000000000 hi\ntotal: 1 calls, 1 segments\n",
        ),
        // One that is cut is run as far as it goes.
        (
            &[HEADER, RECORD, &[1, 0, 0]],
            Status::CaptureCut { at: 42 },
            REPORT,
        ),
        (&[CUT_HEADER], Status::BadCapture { at: 23, code: 1 }, b""),
        (
            &[HEADER_OF_VERSION_3],
            Status::BadCapture { at: 4, code: 3 },
            b"",
        ),
        (
            &[HEADER, LONG_RECORD],
            Status::BadCapture { at: 24, code: 4 },
            b"",
        ),
    ];
    // Pieces of one byte give the same.
    for read in [1, 65536] {
        for (row, (capture, status, written)) in rows.iter().enumerate() {
            let command = Command {
                words: &[b"one", b"c"],
                capture: *capture,
                modules: &[MODULE],
            };
            let (found, bytes) = run(rt.alloc(), command, Outside { read, ..SURE })?;
            assert_eq!(rt; found, *status, "{row}");
            assert_eq!(rt; bytes.bytes(), *written, "{row}");
        }
    }
    Ok(())
}

#[test]
fn keeps_limits(rt: HostRuntime) -> Result<(), Fail> {
    let rows: [(&[&[u8]], &[&[u8]], &[u8], Status, &[u8]); 5] = [
        // The second of two calls waits.
        (
            &[b"one", b"c", b"--calls=1"],
            &[HEADER, RECORD, RECORD],
            MODULE,
            Status::CallLimit,
            REPORT,
        ),
        (
            &[b"one", b"c", b"--calls", b"2"],
            &[HEADER, RECORD, RECORD],
            MODULE,
            Status::Done,
            b"thread 0: 2 calls\n  1.000002000 hi\n  1.000002000 hi\ntotal: 2 calls, 2 segments\n",
        ),
        (
            &[b"one", b"c", b"--fuel", b"100"],
            &[HEADER, RECORD],
            ENDLESS,
            Status::Done,
            b"thread 0: 1 calls\n  ! out of fuel in Main::packet\ntotal: 1 calls, 1 segments\n",
        ),
        // Each instruction takes 1 of the fuel, the last too.
        (
            &[b"one", b"c", b"--fuel=2"],
            &[HEADER, RECORD],
            MODULE,
            Status::Done,
            REPORT,
        ),
        (
            &[b"one", b"c", b"--fuel=1"],
            &[HEADER, RECORD],
            MODULE,
            Status::Done,
            b"thread 0: 1 calls
  1.000002000 hi
  ! out of fuel in Main::packet
total: 1 calls, 1 segments
",
        ),
    ];
    for (row, (words, capture, module, status, written)) in rows.iter().enumerate() {
        let command = Command {
            words: *words,
            capture: *capture,
            modules: &[*module],
        };
        let (found, bytes) = run(rt.alloc(), command, SURE)?;
        assert_eq!(rt; found, *status, "{row}");
        assert_eq!(rt; bytes.bytes(), *written, "{row}");
    }
    Ok(())
}

#[test]
fn hears_faults(rt: HostRuntime) -> Result<(), Fail> {
    let rows: [(Outside<'_>, Status, &[u8]); 3] = [
        (
            Outside {
                write: 10,
                failing_writes: &[2],
                ..SURE
            },
            Status::WriteFault,
            b"thread 0: ",
        ),
        // Opening both modules, their bytes and their ends, opening the capture, and its byte 30, one a read.
        (
            Outside {
                read: 1,
                failing_reads: &[1 + 71 + 1 + 1 + 34 + 1 + 1 + 30],
                ..SURE
            },
            Status::ReadFault,
            b"",
        ),
        // Opening the second module, behind opening the first, its bytes and its end.
        (
            Outside {
                failing_reads: &[4],
                ..SURE
            },
            Status::ReadFault,
            b"",
        ),
    ];
    for (row, (outside, status, written)) in rows.iter().enumerate() {
        let command = Command {
            words: &[b"one", b"c"],
            capture: &[HEADER, RECORD],
            modules: &[MODULE, b"module Other\nglobal bool is_there\n"],
        };
        let (found, bytes) = run(rt.alloc(), command, *outside)?;
        assert_eq!(rt; found, *status, "{row}");
        assert_eq!(rt; bytes.bytes(), *written, "{row}");
    }
    Ok(())
}
