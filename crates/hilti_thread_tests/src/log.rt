//! The report and the journal of a pool, as texts.
use crate::fixtures::{Step, played};
use hilti_core::countdown::Countdown;
use hilti_log::{journal_text, report};
use hilti_pool::Pool;
use std::test::Fail;

#[test]
fn nothing_happened(rt: HostRuntime) -> Result<(), Fail> {
    let alloc = rt.alloc();
    let pool = Pool::new(alloc, &Countdown, 10);
    let text = report(alloc, &pool)?;
    assert_eq!(rt; text.bytes(), b"total: 0 calls, 0 segments\n".as_slice());
    let text = journal_text(alloc, &pool)?;
    assert_eq!(rt; text.bytes(), b"journal: 0 events\n".as_slice());
    Ok(())
}

/// A call on 0 has two segments: it prints, yields, and ends.
#[test]
fn one_thread_ran(rt: HostRuntime) -> Result<(), Fail> {
    let alloc = rt.alloc();
    let (number, thread) = (0, 0);
    let steps = [
        Step::Feed { number },
        Step::Advance { worker: 1, thread },
        Step::Advance { worker: 2, thread },
    ];
    let pool = played(alloc, &steps)?.ok_or("a thread can't go on")?;
    let text = report(alloc, &pool)?;
    assert_eq!(rt;
        text.bytes(),
        b"thread 0: 1 calls\n  0\ntotal: 1 calls, 2 segments\n".as_slice()
    );
    let text = journal_text(alloc, &pool)?;
    assert_eq!(rt;
        text.bytes(),
        b"journal: 5 events\n  feed\n  take 1 0\n  put 1\n  take 2 0\n  put 2\n".as_slice()
    );
    Ok(())
}
