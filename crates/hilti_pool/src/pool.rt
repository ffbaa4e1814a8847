ghost use Rattle.std.specs.Prelude.{◌≡◌, ◌+◌, ◌≤◌, [], ◌∷◌, ◌++◌, OnOk, OnErr, vec_len};
ghost use Rattle.std.specs.Prelude.{vec_capacity};
ghost use Rattle.std.specs.VecDeque.{deque_len, deque_capacity};
ghost use Rattle.hilti_pool.specs.Hall.{HasSeat, Grows};

use crate::entries::Entry;
use crate::hall::Hall;
use hilti_base::{NoMemory, ThreadId};
use hilti_core::{Body, Event, Items};
use hilti_tree::{Call, Calls, copy_call};
use std::alloc::Global;
use std::marker::Model;
use std::snapshot::Snapshot;

/// The virtual threads of a run over one body, with the calls that were fed, and the journal of what was fed, taken and
/// put back. At every moment the pool stands for the core of its journal over the calls that were fed.
#[derive(Drop)]
pub struct Pool<B: Body> {
    alloc: Global,
    body: Snapshot<B>,
    pub(crate) limit: u64,
    pub(crate) fed: Calls,
    pub(crate) journal: Vec<Event>,
    pub(crate) ended: Option<u64>,
    pub(crate) given_up: bool,
    pub(crate) room: Option<Snapshot<Items>>,
    pub(crate) started: u64,
    pub(crate) segments: u64,
    pub(crate) hall: Hall<B::Vt>,
}

impl<B: Body> Model for Pool<B> {
    ghost use Rattle.std.specs.Prelude.{◌≡◌, ◌+◌, ◌≤◌, IfSome, vec_len, vec_capacity};
    ghost use Rattle.std.specs.Option.{option_map};
    ghost use Rattle.std.specs.Coded.{codes};
    ghost use Rattle.hilti_tree.specs.contracts.tree.Tree as trees;
    ghost use Rattle.hilti_pool.specs.State.{PoolState};

    ghost Value = { PoolState B.Data };

    ghost coded = { Prim.hlevel (codes, trees.the_row.coded) };

    ghost use Rattle.hilti_pool.specs.Hall.{HasRoom};
    ghost use Rattle.hilti_pool.specs.Stands.{StandsFor};
    ghost use Rattle.hilti_pool.specs.Entries.{AreEntries};

    ghost view = { λ a. record {
      about = B.facts a.body.value;
      limit = a.limit;
      fed = a.fed;
      journal = a.journal.items;
      ended = a.ended;
      given_up = a.given_up;
      room = option_map (λ items. items.value) a.room;
    } };

    ghost invariant = { λ a.
        let about = B.facts a.body.value in
        StandsFor (B.effect about) (B.sound about) (B.runs about)
        a.fed a.limit a.journal.items a.started a.segments a.hall
        × IfSome a.room (λ items. HasRoom items.value a.hall
        × (vec_len a.journal + 1 ≤ vec_capacity a.journal))
        × AreEntries a.fed a.journal.items a.ended };
}

impl<B: Body> Pool<B> {
    ghost use Rattle.std.specs.Prelude.{◌≡◌, ◌≤◌, true, false, Some, None, IsSome, OnOk, OnErr};
    ghost use Rattle.std.specs.Prelude.{IfErr};
    ghost use Rattle.std.specs.Prelude.{MatchOption, [], ◌∷◌, ◌++◌};
    ghost use Rattle.hilti_pool.specs.State.{empty, after_feed, end_of};
    ghost use Rattle.hilti_pool.specs.Entries.{entries_of};

    /// A pool over this body to which nothing happened, where at most `limit` calls may start: 1 to 100,000,000. It
    /// takes no memory.
    pub fn new(alloc: Global, body: &B, limit: u64) -> Pool<B>
        requires low { 1 ≤ limit }
        requires high { limit ≤ 100000000 }
        ensures pool { result ≡ empty (B.facts body.now) limit }
        ensures entries { entries_of result ≡ [] }
    {
        Pool {
            alloc,
            body: Snapshot::of(body),
            limit,
            fed: Calls::new(alloc),
            journal: Vec::new(alloc),
            ended: None,
            given_up: false,
            room: None,
            started: 0,
            segments: 0,
            hall: Hall::new(alloc),
        }
    }

    /// Posts the next call of the capture to thread 0, whether or not the feed ended. Without memory the call is handed
    /// back, and nothing changes.
    pub fn feed(&mut self, call: Call) -> Result<(), (Call, NoMemory)>
        requires { B.sound self.old.about call }
        ensures ok { OnOk result (self.new ≡ after_feed call self.old) }
        ensures entries { OnOk result
            (entries_of self.new ≡ entries_of self.old ++ Entry.Feed call ∷ []) }
        ensures err { IfErr result (λ back. (back.0 ≡ call) × (self.new ≡ self.old)) }
    {
        let admitted = admit(
            self.alloc,
            &call,
            &mut self.fed,
            &mut self.journal,
            &mut self.hall,
        );
        if let Err(error) = admitted {
            return Err((call, error));
        }
        self.hall.post(ThreadId { n: 0 }, call);
        note(&mut self.journal, Event::Feed);
        self.room = None;
        Ok(())
    }

    /// Marks the feed as ended, behind the events so far; a second call changes nothing. It takes no memory.
    pub fn end_feed(&mut self)
        ensures pool { self.new
            ≡ record self.old { ended = end_of self.old.ended self.old.journal } }
        ensures entries { MatchOption self.old.ended
            (entries_of self.new ≡ entries_of self.old ++ Entry.FeedEnd ∷ [])
            (λ _. entries_of self.new ≡ entries_of self.old) }
    {
        if self.ended.is_none() {
            self.ended = Some(self.journal.len() as u64);
        }
    }

    /// Marks the pool as given up. It takes no memory.
    pub fn give_up(&mut self)
        ensures { self.new ≡ record self.old { given_up = true } }
    {
        self.given_up = true;
    }
}

/// Makes room to feed a call, and adds it to the calls that were fed. Without memory no call is added.
fn admit<T: Drop>(
    alloc: Global,
    call: &Call,
    fed: &mut Calls,
    journal: &mut Vec<Event>,
    hall: &mut Hall<T>,
) -> Result<(), NoMemory>
    ensures grows { Grows hall.old hall.new }
    ensures mail { OnOk result (deque_len hall.new.mail + 1 ≤ deque_capacity hall.new.mail) }
    ensures seat { OnOk result (HasSeat hall.new 0) }
    ensures journal { journal.new.items ≡ journal.old.items }
    ensures journal_room { (vec_len journal.new ≡ vec_len journal.old)
        × (vec_capacity journal.old ≤ vec_capacity journal.new) }
    ensures one_more { OnOk result (vec_len journal.new + 1 ≤ vec_capacity journal.new) }
    ensures ok { OnOk result (fed.new ≡ fed.old ++ call.now ∷ []) }
    ensures err { OnErr result (fed.new ≡ fed.old) }
{
    journal.reserve(1)?;
    hall.reserve_call(ThreadId { n: 0 })?;
    let copied = copy_call(alloc, call)?;
    fed.push(copied)
}

/// Adds an event to a journal that has room for it.
pub(crate) fn note(journal: &mut Vec<Event>, event: Event)
    requires { vec_len journal.old + 1 ≤ vec_capacity journal.old }
    ensures { journal.new.items ≡ journal.old.items ++ event ∷ [] }
{
    let Ok(()) = journal.push(event) else {
        unreachable!()
    };
}
