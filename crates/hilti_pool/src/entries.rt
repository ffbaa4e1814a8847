ghost use Rattle.hilti_pool.specs.Entries.{entries_of, maker_of, subject_of};

use crate::pool::Pool;
use hilti_base::ThreadId;
use hilti_core::Body;
use hilti_tree::Call;
use hilti_turn::Journalled;

/// An entry of a pool's journal as a lock sees it: an event, with the call that a feed fed, or the end of the feed. No
/// value of it is made.
pub enum Entry {
    Feed { call: Call },
    FeedEnd,
    Take { worker: u32, thread: ThreadId },
    Put { worker: u32 },
}

/// What a pool is about: its body's data, and how many calls may start. No value of it is made.
pub struct Subject<D> {
    pub body: D,
    pub limit: u64,
}

impl<B: Body> Journalled for Pool<B> {
    type Entry = Entry;

    type About = Subject<B::Data>;

    ghost entries = { λ pool. entries_of pool };

    ghost maker = { maker_of };

    ghost about = { λ pool. subject_of pool };

    fn count(&self) -> u64 {
        let events = self.journal.len() as u64;
        match self.ended {
            Some(_) => events + 1,
            None => events,
        }
    }
}
