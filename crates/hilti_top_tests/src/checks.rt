//! What `check` answers, and which words are no command. There is no capture.
use crate::fixtures::{Command, MODULE, SURE, run};
use hilti_base::Place;
use hilti_top::Status;
use std::test::Fail;

/// A module is refused at this line and column of its text.
fn bad_module(line: u32, column: u32, code: u32) -> Status {
    let place = Place {
        file: 0,
        line,
        column,
    };
    Status::BadModule { place, code }
}

/// Hook bodies count too.
const HOOK: &[u8] = b"module Main
hook h()
hook h() {
  return.void
}
void packet(time t, bytes d) {
  return.void
}
";

/// The first fault, an unknown name, stands before the first instruction that isn't built.
const LATE: &[u8] = b"module Main
void packet(time t, bytes d) {
  local ref<list<bool>> l
  l = new list<bool>
  print nope
  return.void
}
";

const TO_COME: &[u8] = b"module Main
void packet(time t, bytes d) {
  local ref<list<bool>> l
  l = new list<bool>
  return.void
}
";

#[test]
fn checks_modules(rt: HostRuntime) -> Result<(), Fail> {
    let rows: [(&[u8], Status, &[u8]); 7] = [
        (MODULE, Status::Done, b"accepted: 1 functions\n"),
        (HOOK, Status::Done, b"accepted: 2 functions\n"),
        (LATE, bad_module(5, 9, 21), b""),
        (TO_COME, bad_module(4, 7, 60), b""),
        (
            b"module Main\nvoid packet(time t, bytes d) {\n  print 1\n}\n",
            bad_module(4, 1, 33),
            b"",
        ),
        (
            b"module Main\nvoid packet(time t, bytes d) {\n  t = int.add t 1\n}\n",
            bad_module(3, 15, 30),
            b"",
        ),
        (b"", bad_module(1, 1, 10), b""),
    ];
    for (row, (module, status, written)) in rows.iter().enumerate() {
        let command = Command {
            words: &[b"check"],
            capture: &[],
            modules: &[*module],
        };
        let (found, bytes) = run(rt.alloc(), command, SURE)?;
        assert_eq!(rt; found, *status, "{row}");
        assert_eq!(rt; bytes.bytes(), *written, "{row}");
    }
    Ok(())
}

#[test]
fn knows_its_words(rt: HostRuntime) -> Result<(), Fail> {
    let rows: [(&[&[u8]], &[&[u8]]); 9] = [
        (&[], &[MODULE]),
        (&[b"check", b"--"], &[MODULE]),
        (&[b"check", b"-c"], &[MODULE]),
        (&[b"one", b""], &[MODULE]),
        (&[b"one", b"--fuel", b"0", b"c"], &[MODULE]),
        (&[b"one", b"--fuel", b"5", b"--fuel=6", b"c"], &[MODULE]),
        (&[b"run", b"c"], &[MODULE]),
        (&[b"check"], &[]),
        (&[b"one", b"c"], &[]),
    ];
    for (row, (words, modules)) in rows.iter().enumerate() {
        let command = Command {
            words: *words,
            capture: &[],
            modules: *modules,
        };
        let (status, bytes) = run(rt.alloc(), command, SURE)?;
        assert_eq!(rt; status, Status::Usage, "{row}");
        assert!(rt; bytes.is_empty(), "{row}");
    }
    Ok(())
}
