//! What a worker does with the pool while it has the lock. Without memory it gives the pool up.
ghost use Rattle.std.specs.Prelude.{◌≡◌, ◌++◌, IfOk};
ghost use Rattle.hilti_turn.specs.Journal.{made_by};
ghost use Rattle.hilti_pool.specs.Entries.{entries_of, subject_of, maker_of};
ghost use Rattle.hilti_workers.specs.Entries.{AreEven};
ghost use Rattle.hilti_workers.specs.Finding.{Found, entries_of_take, entries_of_put};
ghost use Rattle.hilti_workers.specs.Feeding.{entries_of_feed};
ghost use Rattle.hilti_workers.specs.Section.{CanPut};
ghost use Rattle.hilti_pool.specs.Standing.{IsStanding};

use hilti_base::{NoMemory, ThreadId};
use hilti_core::{Body, Items, Segment};
use hilti_pool::{Pool, Taken};
use hilti_tree::Call;
use std::alloc::Global;

/// A worker that has no thread asks for one.
pub(crate) fn take_or_give_up<B: Body>(
    pool: &mut Pool<B>,
    alloc: Global,
    worker: u32,
) -> Result<Taken<B>, NoMemory>
    requires { AreEven (made_by maker_of worker (entries_of pool.old)) }
    ensures standing { IsStanding B.effect pool.new }
    ensures subject { subject_of pool.new ≡ subject_of pool.old }
    ensures entries { entries_of pool.new ≡ entries_of pool.old ++ entries_of_take worker result }
    ensures found { IfOk result (Found B.effect B.sound B.runs (subject_of pool.new) worker
        (entries_of pool.new)) }
{
    if let Err(error) = pool.make_room(&Items::new(alloc)) {
        pool.give_up();
        return Err(error);
    }
    Ok(pool.take(worker))
}

/// A worker puts its thread back, with the segment that it ran.
pub(crate) fn put_or_give_up<B: Body>(
    pool: &mut Pool<B>,
    worker: u32,
    thread: ThreadId,
    vt: B::Vt,
    segment: Segment,
) -> Result<(), NoMemory>
    requires { CanPut B.effect B.runs pool.old worker thread.n vt segment }
    ensures subject { subject_of pool.new ≡ subject_of pool.old }
    ensures entries { entries_of pool.new ≡ entries_of pool.old ++ entries_of_put worker result }
{
    if let Err(error) = pool.make_room(&segment.items) {
        pool.give_up();
        return Err(error);
    }
    pool.put(worker, thread, vt, segment);
    Ok(())
}

/// The pass that feeds feeds a call.
pub(crate) fn feed_or_give_up<B: Body>(pool: &mut Pool<B>, call: Call) -> Result<(), NoMemory>
    requires { B.sound pool.old.about call }
    ensures subject { subject_of pool.new ≡ subject_of pool.old }
    ensures entries { entries_of pool.new ≡ entries_of pool.old ++ entries_of_feed call result }
{
    match pool.feed(call) {
        Ok(()) => Ok(()),
        Err((_call, error)) => {
            pool.give_up();
            Err(error)
        }
    }
}
