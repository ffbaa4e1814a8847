//! Feeding a pool, and the turns of its only worker.
ghost use Rattle.std.specs.Prelude.{◌≡◌, ◌≤◌, IfOk, OnOk};
ghost use Rattle.std.specs.List.{All};
ghost use Rattle.std.specs.Option.{option_map};
ghost use Rattle.hilti_pool.specs.State.{InCore};
ghost use Rattle.hilti_one.specs.Alone.{RanAlone};
ghost use Rattle.hilti_one.specs.Turns.{IsBetween, IsSameRun, HasTurn, TakesCalls};

use hilti_base::{NoMemory, ThreadId};
use hilti_core::Body;
use hilti_pool::Pool;
use hilti_tree::Calls;
use std::alloc::Global;
use std::collections::VecDeque;

/// The number of the only worker.
const WORKER: u32 = 0;

/// Runs calls by one worker: all are fed to a new pool, and then whoever arrived first has each next turn, until
/// nothing waits or as many calls as `limit` started, which is 1 to 100,000,000. Each call so runs to its end before
/// another begins. Without memory all of it is dropped.
pub fn run_alone<B: Body>(
    alloc: Global,
    body: &B,
    calls: Calls,
    limit: u64,
) -> Result<Pool<B>, NoMemory>
    requires low { 1 ≤ limit }
    requires high { limit ≤ 100000000 }
    requires sound { All (B.sound (B.facts body.now)) calls }
    ensures about { IfOk result (λ pool. pool.about ≡ B.facts body.now) }
    ensures limit { IfOk result (λ pool. pool.limit ≡ limit) }
    ensures fed { IfOk result (λ pool. pool.fed ≡ calls) }
    ensures ran { IfOk result (λ pool. InCore B.effect pool
        (RanAlone (B.effect pool.about) calls limit)) }
{
    let mut pool = Pool::new(alloc, body, limit);
    feed_all(&mut pool, calls)?;
    take_turns(alloc, body, &mut pool)?;
    Ok(pool)
}

/// Feeds calls to a pool in their order. Without memory some of them were fed.
fn feed_all<B: Body>(pool: &mut Pool<B>, calls: Calls) -> Result<(), NoMemory>
    requires { All (B.sound pool.old.about) calls }
    ensures { OnOk result (TakesCalls calls pool.old pool.new) }
{
    let mut left = VecDeque::from_vec(calls.into_vec());
    while let Some(call) = left.pop_front() {
        if let Err((_call, error)) = pool.feed(call) {
            return Err(error);
        }
    }
    Ok(())
}

/// Gives each next turn to whoever arrived first, until nothing waits or as many calls as may started. Without memory
/// some of the turns were taken, and a thread may be out.
fn take_turns<B: Body>(alloc: Global, body: &B, pool: &mut Pool<B>) -> Result<(), NoMemory>
    requires about { pool.old.about ≡ B.facts body.now }
    requires sound { All (B.sound pool.old.about) pool.old.fed }
    requires between { IsBetween B.effect pool.old }
    ensures same { OnOk result (IsSameRun pool.old pool.new) }
    ensures ran { OnOk result (InCore B.effect pool.new
        (RanAlone (B.effect pool.new.about) pool.new.fed pool.new.limit)) }
{
    while let Some(thread) = next_turn(pool) {
        pool.advance(alloc, body, WORKER, thread)?;
    }
    Ok(())
}

/// The thread that has the next turn: the one that arrived first, unless it waits to start a call where as many as may
/// started; `None` exactly at the end.
fn next_turn<B: Body>(pool: &Pool<B>) -> Option<ThreadId>
    requires { IsBetween B.effect pool.now }
    ensures { InCore B.effect pool.now
        (λ c. HasTurn pool.now.limit c (option_map (λ thread. thread.n) result)) }
{
    let thread = pool.first_arrived()?;
    if pool.is_ready(thread) {
        Some(thread)
    } else {
        None
    }
}
