//! Laws over definitions alone, for every body, list of calls, limit and journal. They take no memory and do nothing:
//! a caller learns what they ensure.

ghost use Rattle.std.specs.Prelude.{ℕ, List};
ghost use Rattle.hilti_tree.specs.declared.call.Call.{Call};
ghost use Rattle.hilti_core.specs.declared.event.Event.{Event};
ghost use Rattle.hilti_core.specs.Core.{OverJournals};
ghost use Rattle.hilti_core.specs.Atomic.{IsCallAtomic};
ghost use Rattle.hilti_core.specs.One.{HasOneAnswer, HasOneCount};
ghost use Rattle.hilti_core.specs.Complete.{CompletesWithCore};
ghost use Rattle.hilti_core.specs.Causes.{ArrivesCausally};
ghost use Rattle.hilti_core.specs.Kept.{KeepsCore, TakesMore, AreHistories};
ghost use Rattle.hilti_core.specs.Inboxes.{KeepsInboxes};
ghost use Rattle.hilti_core.specs.UnderWay.{KeepsUnderWay};
ghost use Rattle.hilti_core.specs.Journals.{RunsOn, StaysOut};
ghost use Rattle.hilti_core.specs.Machine.{Pick};
ghost use Rattle.hilti_core.specs.Schedule.{RunsOneByOne, ReachesEnd};

use crate::body::Body;

/// Call-atomic order: the starts of every legal journal are a history of the machine that runs each call at once, and
/// its state compares with the core's. Where no call is in progress their logs, calls and segments are equal.
pub fn call_atomic<B: Body>()
    ensures { (about : B.Data) → OverJournals (IsCallAtomic (B.effect about)) }
{}

/// One sender, one answer: the one-worker history is a history of at most `limit` picks, complete where it has fewer.
/// Where it is complete and each receiver's calls have one sender, no history has more picks, and every complete
/// history has its logs, calls and segments.
pub fn one_sender<B: Body>()
    ensures { (about : B.Data) (calls : List Call) (limit : ℕ) →
        HasOneAnswer (B.effect about) calls limit }
{}

/// Causal arrival: in every legal journal a call is posted once, and only after each call that comes before it. So of
/// two calls to one thread, of which one comes before the other, the history starts the other only after the one.
pub fn causal<B: Body>()
    ensures { (about : B.Data) → OverJournals (ArrivesCausally (B.effect about)) }
{}

/// What every history has: threads are what their calls did, each channel is first in first out, no call is started
/// twice, and the history can go on by a pick wherever a channel isn't empty.
pub fn histories<B: Body>()
    ensures { (about : B.Data) (calls : List Call) (picks : List Pick) →
        AreHistories (B.effect about) calls picks }
{}

/// What every legal core keeps: workers and threads agree, no more calls started than may, inboxes are first in first
/// out and numbered, and over sound calls every call in it is sound.
pub fn legal_core<B: Body>()
    ensures { (about : B.Data) → OverJournals (KeepsCore (B.effect about) (B.sound about)) }
{}

/// A journal that is legal over some calls is legal over more, and leaves those unfed.
pub fn more_calls<B: Body>()
    ensures { (about : B.Data) (calls more : List Call) (limit : ℕ) (journal : List Event) →
        TakesMore (B.effect about) calls more limit journal }
{}

/// The core of two journals one after the other is that of the second, run from the core of the first.
pub fn one_after_another<B: Body>()
    ensures { (about : B.Data) → OverJournals (RunsOn (B.effect about)) }
{}

/// A thread that is out at a worker stays out there, with the calls, log and call in progress that it has, until the
/// worker's put.
pub fn stays_out<B: Body>()
    ensures { (about : B.Data) → OverJournals (StaysOut (B.effect about)) }
{}

/// The history of a legal journal is complete exactly where in the core no call waits, the capture was fed, and no
/// call in progress sends anything more.
pub fn complete<B: Body>()
    ensures { (about : B.Data) → OverJournals (CompletesWithCore (B.effect about)) }
{}

/// Where the one-worker history is complete and each receiver's calls have one sender, every complete history starts
/// as many calls.
pub fn one_count<B: Body>()
    ensures { (about : B.Data) (calls : List Call) (limit : ℕ) →
        HasOneCount (B.effect about) calls limit }
{}

/// In every legal core the numbers of the calls in each inbox rise, and the calls started and those that wait are as
/// many as were posted.
pub fn inboxes<B: Body>()
    ensures { (about : B.Data) → OverJournals (KeepsInboxes (B.effect about)) }
{}

/// Over sound calls a call in progress was given fewer segments than it has, so a worker that has a thread may put it;
/// and it goes on behind a segment exactly where that ends `Yielded`.
pub fn under_way<B: Body>()
    ensures { (about : B.Data) → OverJournals (KeepsUnderWay (B.effect about) (B.sound about)) }
{}

/// One worker: where all calls are fed and then the suspended thread of least number has each next turn, or with none
/// suspended the thread whose call was posted first, the starts are the one-worker history. At the end the core has
/// its logs, calls and segments, and it is complete exactly where no call waits.
pub fn one_by_one<B: Body>()
    ensures { (about : B.Data) → OverJournals (RunsOneByOne (B.effect about)) }
{}

/// Over sound calls the order of one worker goes on to an end from wherever it is.
pub fn one_ends<B: Body>()
    ensures { (about : B.Data) → OverJournals (ReachesEnd (B.effect about) (B.sound about)) }
{}
