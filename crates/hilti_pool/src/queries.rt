use crate::pool::Pool;
use hilti_base::{Blob, ThreadId};
use hilti_core::{Body, Event};
use hilti_tree::Calls;

impl<B: Body> Pool<B> {
    ghost use Rattle.std.specs.Prelude.{◌≡◌, length, MatchOption};
    ghost use Rattle.std.specs.Option.{option_map};
    ghost use Rattle.hilti_pool.specs.State.{InCore};
    ghost use Rattle.hilti_pool.specs.Readiness.{IsFirst, HasWaiting};
    ghost use Rattle.hilti_pool.specs.Roll.{HasThreads, IsLogAt, EndsBy};

    /// The thread that goes on where one worker runs all: the suspended one of least number, else the one whose waiting
    /// call was posted first; `None` exactly where none is suspended and nothing waits. It takes no memory.
    pub fn first_arrived(&self) -> Option<ThreadId>
        ensures { InCore B.effect self.now
            (λ c. IsFirst c (option_map (λ thread. thread.n) result)) }
    {
        self.hall.first_arrived()
    }

    /// The thread that is out at a worker; `None` exactly where none is. It takes no memory.
    pub fn out_at(&self, worker: u32) -> Option<ThreadId>
        ensures { InCore B.effect self.now (λ c. c.out worker
            ≡ option_map (λ thread. thread.n) result) }
    {
        self.hall.out_at(worker)
    }

    /// How many calls may start.
    pub fn limit(&self) -> u64
        ensures { result ≡ self.now.limit }
    {
        self.limit
    }

    /// The events in their order.
    pub fn journal(&self) -> &[Event]
        ensures { result.now ≡ self.now.journal }
    {
        self.journal.as_slice()
    }

    /// The calls that were fed, in their order.
    pub fn fed(&self) -> &Calls
        ensures { result.now ≡ self.now.fed }
    {
        &self.fed
    }

    /// How many calls started.
    pub fn started(&self) -> u64
        ensures { InCore B.effect self.now (λ c. result ≡ length c.started) }
    {
        self.started
    }

    /// How many segments were taken.
    pub fn segments(&self) -> u64
        ensures { InCore B.effect self.now (λ c. result ≡ c.takes) }
    {
        self.segments
    }

    /// How many calls wait in all inboxes.
    pub fn waiting(&self) -> u64
        ensures { InCore B.effect self.now (λ c. HasWaiting c result) }
    {
        self.hall.mail.len() as u64
    }

    /// How many threads ran: those that started a call.
    pub fn threads(&self) -> u64
        ensures { InCore B.effect self.now (HasThreads result) }
    {
        self.hall.roll.len() as u64
    }

    /// Of the threads that ran, by rising number, the one at this place, with how many calls it started and its lines;
    /// `None` exactly past the last.
    pub fn log(&self, place: u64) -> Option<(ThreadId, u64, &[Blob])>
        ensures { InCore B.effect self.now (λ c. MatchOption result (EndsBy place c)
            (λ log. IsLogAt place log.0.n log.1 log.2.now c)) }
    {
        self.hall.log(place as usize)
    }
}
