//! Threads of a pool that go from worker to worker.
use crate::fixtures::{Step, played};
use hilti_base::ThreadId;
use hilti_core::Event;
use hilti_core::countdown::Countdown;
use hilti_pool::Pool;
use hilti_turn::Journalled;
use std::process::Abort;
use std::test::Fail;

fn go(worker: u32, thread: u64) -> Step {
    Step::Advance { worker, thread }
}

fn check_log(rt: &impl Abort, pool: &Pool<Countdown>, place: u64, thread: u64, lines: &[&[u8]]) {
    let Some((found, calls, log)) = pool.log(place) else {
        assert!(rt; false, "no log at {place}");
        return;
    };
    assert_eq!(rt; found.n, thread);
    assert_eq!(rt; calls, lines.len() as u64);
    assert_eq!(rt; log.len(), lines.len());
    assert!(rt;
        log.iter()
            .zip(lines.iter())
            .all(|(line, wanted)| line.bytes() == *wanted)
    );
}

/// A call on 1 prints, goes on at another worker, and sends a call on 0; a call on 0 is fed between. Then nothing is left.
#[test]
fn threads_go_from_worker_to_worker(rt: HostRuntime) -> Result<(), Fail> {
    let alloc = rt.alloc();
    let steps = [
        Step::Feed { number: 1 },
        go(1, 0),
        Step::Feed { number: 0 },
        Step::EndFeed,
        go(2, 0),
        go(2, 0),
        go(1, 1),
        go(1, 0),
        go(1, 1),
        go(1, 0),
    ];
    let half = played(alloc, &steps[..5])?.ok_or("a thread can't go on")?;
    assert_eq!(rt; half.waiting(), 2);
    assert_eq!(rt; half.first_arrived(), Some(ThreadId { n: 0 }));
    let pool = played(alloc, &steps[..9])?.ok_or("a thread can't go on")?;
    assert_eq!(rt; pool.waiting(), 0);
    assert_eq!(rt; pool.first_arrived(), None);
    assert_eq!(rt; pool.limit(), 10);
    assert_eq!(rt; pool.fed().len(), 2);
    assert_eq!(rt; pool.started(), 3);
    assert_eq!(rt; pool.segments(), 6);
    assert_eq!(rt; pool.journal().len(), 14);
    assert_eq!(rt; pool.journal().get(2), Some(&Event::Put { worker: 1 }));
    assert_eq!(rt; pool.count(), 15);
    assert_eq!(rt; pool.threads(), 2);
    check_log(&rt, &pool, 0, 0, &[b"1", b"0"]);
    check_log(&rt, &pool, 1, 1, &[b"0"]);
    assert!(rt; pool.log(2).is_none());
    assert!(rt; played(alloc, &steps)?.is_none());
    Ok(())
}
