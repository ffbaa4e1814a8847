//! A worker's turns.
ghost use Rattle.std.specs.Prelude.{◌≡◌, ◌++◌, IfOk, OnOk, OnErr};
ghost use mathlib.Core.List.{IsPrefix};
ghost use Rattle.hilti_turn.specs.Passes.{number, seen, mine, IsSamePass};
ghost use Rattle.hilti_pool.specs.Work.{IsDone};
ghost use Rattle.hilti_workers.specs.Entries.{AreEven, Shows};
ghost use Rattle.hilti_workers.specs.Finding.{ShowsOver, Found, entries_of_take, entries_of_put};
ghost use Rattle.hilti_workers.specs.Turns.{IsAtHand, KnowsOwn, IsAbout, OfSeen};
ghost use Rattle.hilti_workers.specs.Turns.{RanAll, Entered, BrokeOff, Tells};

use crate::section::{put_or_give_up, take_or_give_up};
use hilti_base::{NoMemory, ThreadId};
use hilti_core::{Body, Segment};
use hilti_outside::Gate;
use hilti_pool::{Job, Pool, Taken};
use hilti_turn::{Pass, Turn};
use std::alloc::Global;
use std::sync::Wait;

/// What came of a worker's turn.
#[derive(Clone, Copy, Debug, PartialEq, Eq)]
pub enum Turned {
    /// It took a thread, ran one segment of it, and put it back.
    Ran,
    /// No thread was ready, but one may become so.
    Idle,
    /// No thread was ready or out, and the feed had ended, or as many calls had started as may while others wait.
    Over,
}

/// One turn of a worker: it takes a thread that is ready, comes past the gate, runs one segment, and puts the thread
/// back. Without memory, and where another worker found none, the pool is given up.
pub fn turn<R: Wait, B: Body + Send + Sync, G: Gate>(
    turn: &Turn<Pool<B>>,
    rt: &R,
    alloc: Global,
    pass: &mut Pass<Pool<B>>,
    body: &B,
    gate: &G,
) -> Result<Turned, NoMemory>
    requires at_hand { IsAtHand turn.now pass.old }
    requires even { AreEven (mine pass.old) }
    requires about { IsAbout (B.facts body.now) pass.old }
    ensures at_hand { IsAtHand turn.now pass.new }
    ensures same { IsSamePass pass.old pass.new }
    ensures knows { KnowsOwn pass.new }
    ensures begins { IsPrefix (seen pass.old) (seen pass.new) }
    ensures entered { Entered pass.old pass.new }
    ensures answer { IfOk result (Tells B.effect pass.old pass.new) }
    ensures err { OnErr result (BrokeOff pass.old pass.new) }
{
    match take_job(turn, rt, alloc, pass)? {
        Taken::Job(job) => {
            run_job(turn, rt, alloc, pass, body, gate, job)?;
            Ok(Turned::Ran)
        }
        Taken::Nothing => Ok(Turned::Idle),
        Taken::Finished | Taken::Limit => Ok(Turned::Over),
        Taken::Broken => Err(NoMemory),
    }
}

/// Takes turns until one finds that all is over.
pub fn work<R: Wait, B: Body + Send + Sync, G: Gate>(
    turn: &Turn<Pool<B>>,
    rt: &R,
    alloc: Global,
    pass: &mut Pass<Pool<B>>,
    body: &B,
    gate: &G,
) -> Result<(), NoMemory>
    requires at_hand { IsAtHand turn.now pass.old }
    requires even { AreEven (mine pass.old) }
    requires about { IsAbout (B.facts body.now) pass.old }
    ensures at_hand { IsAtHand turn.now pass.new }
    ensures same { IsSamePass pass.old pass.new }
    ensures knows { KnowsOwn pass.new }
    ensures entered { Entered pass.old pass.new }
    ensures ran { OnOk result (RanAll pass.old pass.new) }
    ensures over { OnOk result (OfSeen pass.new (ShowsOver B.effect)) }
{
    for _ in rt.forever() {
        let turned = crate::turns::turn(turn, rt, alloc, pass, body, gate)?;
        if turned == Turned::Over {
            return Ok(());
        }
    }
    unreachable!()
}

/// Enters, and asks for a thread.
fn take_job<R: Wait, B: Body + Send + Sync>(
    turn: &Turn<Pool<B>>,
    rt: &R,
    alloc: Global,
    pass: &mut Pass<Pool<B>>,
) -> Result<Taken<B>, NoMemory>
    requires at_hand { IsAtHand turn.now pass.old }
    requires even { AreEven (mine pass.old) }
    ensures at_hand { IsAtHand turn.now pass.new }
    ensures same { IsSamePass pass.old pass.new }
    ensures knows { KnowsOwn pass.new }
    ensures begins { IsPrefix (seen pass.old) (seen pass.new) }
    ensures entered { Entered pass.old pass.new }
    ensures mine { mine pass.new ≡ mine pass.old ++ entries_of_take (number pass.old) result }
    ensures found { IfOk result (λ taken. OfSeen pass.new (λ subject entries.
        Found B.effect B.sound B.runs subject (number pass.old) entries taken)) }
{
    let mut pool = turn.enter(rt, pass);
    let taken = take_or_give_up(&mut pool, alloc, pass.number());
    turn.leave(pass, pool);
    taken
}

/// Runs one segment of a job, outside the lock, and puts its thread back.
fn run_job<R: Wait, B: Body + Send + Sync, G: Gate>(
    turn: &Turn<Pool<B>>,
    rt: &R,
    alloc: Global,
    pass: &mut Pass<Pool<B>>,
    body: &B,
    gate: &G,
    job: Job<B>,
) -> Result<(), NoMemory>
    requires at_hand { IsAtHand turn.now pass.old }
    requires knows { KnowsOwn pass.old }
    requires about { IsAbout (B.facts body.now) pass.old }
    requires job { OfSeen pass.old (λ subject entries. Found B.effect B.sound B.runs subject
        (number pass.old) entries (Taken.Job job)) }
    ensures at_hand { IsAtHand turn.now pass.new }
    ensures same { IsSamePass pass.old pass.new }
    ensures knows { KnowsOwn pass.new }
    ensures begins { IsPrefix (seen pass.old) (seen pass.new) }
    ensures entered { Entered pass.old pass.new }
    ensures mine { mine pass.new ≡ mine pass.old ++ entries_of_put (number pass.old) result }
{
    let thread = job.thread;
    gate.held(pass.number(), thread.n);
    match job.run(alloc, body) {
        Ok((vt, segment)) => put_job(turn, rt, pass, thread, vt, segment),
        Err(error) => {
            break_off(turn, rt, pass);
            Err(error)
        }
    }
}

/// Enters, and puts a thread back with the segment that it ran.
fn put_job<R: Wait, B: Body + Send + Sync>(
    turn: &Turn<Pool<B>>,
    rt: &R,
    pass: &mut Pass<Pool<B>>,
    thread: ThreadId,
    vt: B::Vt,
    segment: Segment,
) -> Result<(), NoMemory>
    requires at_hand { IsAtHand turn.now pass.old }
    requires knows { KnowsOwn pass.old }
    requires done { OfSeen pass.old (λ subject entries. Shows B.effect subject entries
        (IsDone (B.effect subject.body) (B.runs subject.body)
        (number pass.old) thread.n vt segment)) }
    ensures at_hand { IsAtHand turn.now pass.new }
    ensures same { IsSamePass pass.old pass.new }
    ensures knows { KnowsOwn pass.new }
    ensures begins { IsPrefix (seen pass.old) (seen pass.new) }
    ensures entered { Entered pass.old pass.new }
    ensures mine { mine pass.new ≡ mine pass.old ++ entries_of_put (number pass.old) result }
{
    let mut pool = turn.enter(rt, pass);
    let put = put_or_give_up(&mut pool, pass.number(), thread, vt, segment);
    turn.leave(pass, pool);
    put
}

/// Enters, and gives the pool up.
pub(crate) fn break_off<R: Wait, B: Body + Send + Sync>(
    turn: &Turn<Pool<B>>,
    rt: &R,
    pass: &mut Pass<Pool<B>>,
)
    requires at_hand { IsAtHand turn.now pass.old }
    ensures at_hand { IsAtHand turn.now pass.new }
    ensures same { IsSamePass pass.old pass.new }
    ensures knows { KnowsOwn pass.new }
    ensures begins { IsPrefix (seen pass.old) (seen pass.new) }
    ensures entered { Entered pass.old pass.new }
    ensures mine { mine pass.new ≡ mine pass.old }
{
    let mut pool = turn.enter(rt, pass);
    pool.give_up();
    turn.leave(pass, pool);
}
