//! What `one` writes for programs of one module.
use crate::fixtures::{Command, HEADER, RECORD, SURE, run};
use hilti_top::Status;
use std::test::Fail;

/// A function calls itself and hands a number back.
const CALLS: &[u8] = b"module Main
int<64> five(int<64> n) {
  local bool more
  local int<64> next
  more = int.lt 4 n
  if.else more @enough @again
@enough:
  return.result n
@again:
  next = int.add n 1
  next = call five (next)
  return.result next
}
void packet(time t, bytes d) {
  local int<64> x
  x = call five (0)
  print x
  return.void
}
";

/// A loop counts.
const LOOPS: &[u8] = b"module Main
void packet(time t, bytes d) {
  local int<8> n
  local bool more
  jump @next
@next:
  n = int.add n 100
  print n
  more = int.gt n 99
  if.else more @next @end
@end:
  return.void
}
";

/// A raise is caught in the caller, or ends the call.
const RAISES: &[u8] = b"module Main
type Odd = exception
global bool seen
void fails() {
  exception.throw Odd \"why\"
}
void packet(time t, bytes d) {
  local string e
  local int<8> x
  if.else seen @second @first
@first catch ValueError @second e catch Exception @caught e:
  call fails ()
  return.void
@caught:
  seen = assign True
  print \"caught\" e
  return.void
@second:
  x = int.div 1 0
  return.void
}
";

/// A call is suspended.
const YIELDS: &[u8] = b"module Main
void packet(time t, bytes d) {
  print \"a\"
  yield
  print \"b\"
  return.void
}
";

/// A call spends its fuel.
const SPENDS: &[u8] = b"module Main
void packet(time t, bytes d) {
  jump @a
@a:
  jump @a
}
";

/// `Main::init` runs before the first call, `Main::done` behind the last packet, and globals and objects are kept.
const KEEPS: &[u8] = b"module Main
type Counted = struct { int<64> n, bool odd }
global ref<Counted> kept
global int<64> calls = 7
void done() {
  print \"done\" calls
  return.void
}
void init() {
  print \"init\"
  kept = new Counted
  struct.set kept n 40
  return.void
}
void packet(time t, bytes d) {
  local int<64> n
  local bool has
  calls = int.add calls 1
  n = struct.get kept n
  has = struct.is_set kept odd
  print n has
  n = int.add n 1
  struct.set kept n n
  return.void
}
";

#[test]
fn runs_programs(rt: HostRuntime) -> Result<(), Fail> {
    let rows: [(&[u8], &[u8]); 5] = [
        (
            CALLS,
            b"thread 0: 2 calls\n  5\n  5\ntotal: 2 calls, 2 segments\n",
        ),
        (
            LOOPS,
            b"thread 0: 2 calls
  100
  200
  44
  100
  200
  44
total: 2 calls, 2 segments
",
        ),
        (
            RAISES,
            b"thread 0: 2 calls
  caught why
  ! uncaught DivisionByZero \"\" in Main::packet
total: 2 calls, 2 segments
",
        ),
        (
            YIELDS,
            b"thread 0: 2 calls\n  a\n  b\n  a\n  b\ntotal: 2 calls, 4 segments\n",
        ),
        (
            KEEPS,
            b"thread 0: 3 calls
  init
  40 False
  41 False
  done 9
total: 3 calls, 3 segments
",
        ),
    ];
    for (row, (module, written)) in rows.iter().enumerate() {
        let command = Command {
            words: &[b"one", b"c"],
            capture: &[HEADER, RECORD, RECORD],
            modules: &[*module],
        };
        let (status, bytes) = run(rt.alloc(), command, SURE)?;
        assert_eq!(rt; status, Status::Done, "{row}");
        assert_eq!(rt; bytes.bytes(), *written, "{row}");
    }
    Ok(())
}

/// Without packets `done` is the first call.
#[test]
fn runs_without_packets(rt: HostRuntime) -> Result<(), Fail> {
    let command = Command {
        words: &[b"one", b"c"],
        capture: &[HEADER],
        modules: &[KEEPS],
    };
    let (status, bytes) = run(rt.alloc(), command, SURE)?;
    assert_eq!(rt; status, Status::Done);
    assert_eq!(rt;
        bytes.bytes(),
        b"thread 0: 1 calls\n  init\n  done 7\ntotal: 1 calls, 1 segments\n".as_slice()
    );
    Ok(())
}

/// Each of two calls ends where the fuel is spent that it has without an option.
#[test]
fn spends_its_fuel(rt: HostRuntime) -> Result<(), Fail> {
    let command = Command {
        words: &[b"one", b"c"],
        capture: &[HEADER, RECORD, RECORD],
        modules: &[SPENDS],
    };
    let (status, bytes) = run(rt.alloc(), command, SURE)?;
    assert_eq!(rt; status, Status::Done);
    assert_eq!(rt;
        bytes.bytes(),
        b"thread 0: 2 calls
  ! out of fuel in Main::packet
  ! out of fuel in Main::packet
total: 2 calls, 2 segments
"
            .as_slice()
    );
    Ok(())
}
