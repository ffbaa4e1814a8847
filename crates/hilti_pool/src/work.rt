ghost use Rattle.std.specs.Prelude.{◌≡◌};
ghost use Rattle.hilti_pool.specs.Hall.{count_begun};

use crate::entries::Entry;
use crate::job::{Job, Taken};
use crate::pool::{Pool, note};
use hilti_base::{NoMemory, ThreadId};
use hilti_core::{Body, Event, Items, Segment};
use hilti_tree::Call;
use std::alloc::Global;
use std::snapshot::Snapshot;

impl<B: Body> Pool<B> {
    ghost use Rattle.std.specs.Prelude.{◌≡◌, ◌↔◌, None, Some, true, false, IsSome, IsTrue, OnOk, OnErr};
    ghost use Rattle.std.specs.Prelude.{[], ◌∷◌, ◌++◌, ◌⊎◌};
    ghost use Rattle.hilti_pool.specs.State.{InCore, after_take, after_put};
    ghost use Rattle.hilti_pool.specs.Entries.{entries_of};
    ghost use Rattle.hilti_pool.specs.Readiness.{IsReady};
    ghost use Rattle.hilti_pool.specs.Taking.{HasCause, Changes, IfJob};
    ghost use Rattle.hilti_pool.specs.Work.{IsJob, IsDone};
    ghost use Rattle.hilti_pool.specs.Standing.{IsStanding};

    /// Makes room for one more event, and for posting these items. Without memory nothing changes.
    pub fn make_room(&mut self, items: &Items) -> Result<(), NoMemory>
        ensures standing { IsStanding B.effect self.new }
        ensures ok { OnOk result (self.new ≡ record self.old { room = Some items.now }) }
        ensures err { OnErr result (self.new ≡ self.old) }
    {
        self.journal.reserve(1)?;
        self.hall.reserve(items)?;
        self.room = Some(Snapshot::of(items));
        Ok(())
    }

    /// Is the thread at home, and suspended, or awaited by a call where fewer than the limit started? It takes no
    /// memory.
    pub fn is_ready(&self, thread: ThreadId) -> bool
        ensures { InCore B.effect self.now
            (λ c. IsTrue result ↔ IsReady self.now.limit c thread.n) }
    {
        self.hall.can_go(thread, self.started < self.limit)
    }

    /// A worker that has no thread takes one that is ready: its job is what that goes on with, or the first call that
    /// waits for it. There must be room for one event. It takes no memory.
    pub fn take_thread(&mut self, worker: u32, thread: ThreadId) -> Job<B>
        requires room { IsSome self.old.room }
        requires goes_on { self.old.given_up ≡ false }
        requires free { InCore B.effect self.old (λ c. c.out worker ≡ None) }
        requires ready { InCore B.effect self.old (λ c. IsReady self.old.limit c thread.n) }
        ensures thread { result.thread ≡ thread }
        ensures job { InCore B.effect self.new (IsJob (B.sound self.new.about)
            (B.runs self.new.about) worker thread.n result.vt result.next) }
        ensures pool { self.new ≡ after_take worker thread self.old }
        ensures entries { entries_of self.new
            ≡ entries_of self.old ++ Entry.Take worker thread ∷ [] }
    {
        let (vt, next) = self.hall.send_out(worker, thread);
        note(&mut self.journal, Event::Take { worker, thread });
        self.started += begun(&next);
        self.segments += 1;
        self.room = None;
        Job { thread, vt, next }
    }

    /// A worker that has no thread takes any that is ready: the one that was suspended first, else the one whose call
    /// waits longest. There must be room for one event. It takes no memory.
    pub fn take(&mut self, worker: u32) -> Taken<B>
        requires room { IsSome self.old.room }
        requires free { InCore B.effect self.old (λ c. c.out worker ≡ None) }
        ensures cause { InCore B.effect self.old (λ c. HasCause self.old c result) }
        ensures pool { Changes worker result self.old self.new }
        ensures job { IfJob result (λ job. InCore B.effect self.new (IsJob (B.sound self.new.about)
            (B.runs self.new.about) worker job.thread.n job.vt job.next)) }
        ensures entries { IfJob result (λ job. entries_of self.new
            ≡ entries_of self.old ++ Entry.Take worker job.thread ∷ []) }
    {
        if self.given_up {
            return Taken::Broken;
        }
        if let Some(thread) = self.hall.any_ready(self.started < self.limit) {
            return Taken::Job(self.take_thread(worker, thread));
        }
        if self.hall.has_out() {
            return Taken::Nothing;
        }
        if self.hall.has_any_mail() {
            return Taken::Limit;
        }
        if self.ended.is_none() {
            return Taken::Nothing;
        }
        Taken::Finished
    }

    /// A worker gives its thread back, with the virtual thread and the segment that it ran. What the segment did is
    /// posted in its order, and there must be room for it. It takes no memory.
    pub fn put(&mut self, worker: u32, thread: ThreadId, vt: B::Vt, segment: Segment)
        requires room { self.old.room ≡ Some segment.items }
        requires done { InCore B.effect self.old (IsDone (B.effect self.old.about)
            (B.runs self.old.about) worker thread.n vt segment) }
        ensures pool { self.new ≡ after_put worker self.old }
        ensures entries { entries_of self.new ≡ entries_of self.old ++ Entry.Put worker ∷ [] }
    {
        let Segment { items, end } = segment;
        self.hall.give_back(worker, thread, vt, items, end);
        note(&mut self.journal, Event::Put { worker });
        self.room = None;
    }

    /// A worker that has no thread takes one that is ready, runs one segment of it by the pool's body, and gives it
    /// back. Without memory nothing changes, or the thread stays out at the worker.
    pub fn advance(
        &mut self,
        alloc: Global,
        body: &B,
        worker: u32,
        thread: ThreadId,
    ) -> Result<(), NoMemory>
        requires about { self.old.about ≡ B.facts body.now }
        requires goes_on { self.old.given_up ≡ false }
        requires free { InCore B.effect self.old (λ c. c.out worker ≡ None) }
        requires ready { InCore B.effect self.old (λ c. IsReady self.old.limit c thread.n) }
        ensures ok { OnOk result
            (self.new ≡ after_put worker (after_take worker thread self.old)) }
        ensures err { OnErr result ((self.new ≡ self.old)
            ⊎ (self.new ≡ after_take worker thread self.old)) }
    {
        self.make_room(&Items::new(alloc))?;
        let job = self.take_thread(worker, thread);
        let (vt, segment) = job.run(alloc, body)?;
        self.make_room(&segment.items)?;
        self.put(worker, thread, vt, segment);
        Ok(())
    }
}

/// How many calls begin: none or one.
fn begun(next: &Option<Call>) -> u64
    ensures { result ≡ count_begun next.now }
{
    match next {
        Some(_) => 1,
        None => 0,
    }
}
