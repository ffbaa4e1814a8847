//! The reports of calls that one worker runs.
ghost use Rattle.std.specs.Prelude.{◌≤◌, IfOk};
ghost use Rattle.std.specs.List.{All};
ghost use Rattle.hilti_core.specs.Countdown.{IsNumber};

use crate::fixtures::number_call;
use hilti_base::{Blob, NoMemory};
use hilti_core::countdown::Countdown;
use hilti_log::report;
use hilti_one::run_alone;
use hilti_tree::Calls;
use std::alloc::Global;
use std::test::Fail;

/// Calls on these numbers.
fn calls_on(alloc: Global, numbers: &[u64]) -> Result<Calls, NoMemory>
    ensures { IfOk result (λ calls. All IsNumber calls) }
{
    let mut calls = Calls::new(alloc);
    for number in numbers {
        calls.push(number_call(alloc, *number)?)?;
    }
    Ok(calls)
}

/// The report of calls on 1, 0 and 2, and of the calls that they send, of which at most `limit` start.
fn report_of(alloc: Global, limit: u64) -> Result<Blob, NoMemory>
    requires low { 1 ≤ limit }
    requires high { limit ≤ 100000000 }
{
    let calls = calls_on(alloc, &[1, 0, 2])?;
    let pool = run_alone(alloc, &Countdown, calls, limit)?;
    report(alloc, &pool)
}

/// The call on 1 sends one to thread 1; the call on 2 sends one to thread 2, which sends another to thread 1. Calls start
/// in the order of posting, and those behind the limit wait.
#[test]
fn calls_run_one_after_another(rt: HostRuntime) -> Result<(), Fail> {
    let all = report_of(rt.alloc(), 10)?;
    assert_eq!(rt;
        all.bytes(),
        b"thread 0: 3 calls\n  1\n  0\n  2\nthread 1: 2 calls\n  0\n  0\nthread 2: 1 calls\n  1\ntotal: 6 calls, 12 segments\n".as_slice()
    );
    let first_four = report_of(rt.alloc(), 4)?;
    assert_eq!(rt;
        first_four.bytes(),
        b"thread 0: 3 calls\n  1\n  0\n  2\nthread 1: 1 calls\n  0\ntotal: 4 calls, 8 segments\n".as_slice()
    );
    Ok(())
}
