ghost use Rattle.std.specs.Prelude.{◌≡◌, ◌+◌, ◌<◌, ◌≤◌, ◌^◌, ◌↔◌, ℕ, [], ◌∷◌, ◌++◌, length, IsTrue};
ghost use Rattle.std.specs.Prelude.{◌⊎◌, IsSome, IfSome, MatchOption, IfNone, None, MatchBool, not};
ghost use Rattle.std.specs.Prelude.{filter, ◌==◌, take, OnOk, vec_len, vec_capacity};
ghost use Rattle.std.specs.List.{All, Contains};
ghost use Rattle.std.specs.VecDeque.{deque_len, deque_capacity};
ghost use Rattle.hilti_pool.specs.declared.seat.Place.TheVariants.{Idle, Suspended};
ghost use Rattle.hilti_core.specs.declared.pieces.End.TheVariants.{Yielded};
ghost use Rattle.hilti_core.specs.Sending.{lines, put_at};
ghost use Rattle.hilti_pool.specs.ComingHome.{ComesToRest};
ghost use Rattle.hilti_pool.specs.Hall.{face, back_home, seat_at, HasSeat, HasLogRoom, HasRoom};
ghost use Rattle.hilti_pool.specs.Hall.{Grows, Leaves, Wakes, ComesBack, TakesFirst, posted_by};
ghost use Rattle.hilti_pool.specs.Hall.{receivers, NoneFor, IsFirstFor, IsAtHome, IsResting};
ghost use Rattle.hilti_pool.specs.Hall.{NoneAtHome, IsAwaited, MayGo, NoneMayGo, WasIdle};
ghost use Rattle.std.specs.List.Sorted.{IsStrictlyIncreasing};
ghost use Rattle.hilti_pool.specs.Roll.{Enrols};
ghost use Rattle.hilti_pool.specs.Hall.{CanBegin, CanGo, Departs, IsLogOf};
ghost use Rattle.hilti_pool.specs.Hall.{HasNothing, HasThread, ComesFirst};

use crate::seat::{Away, Place, Posted, Seat};
use hilti_base::{Blob, NoMemory, ThreadId};
use hilti_core::{End, Item, Items};
use hilti_tree::Call;
use std::alloc::Global;
use std::collections::{BTreeMap, VecDeque};

/// The virtual threads of a pool, the calls that wait in their order of posting, the threads that are suspended at
/// home, and those that are out.
#[derive(Drop)]
pub(crate) struct Hall<T> {
    alloc: Global,
    pub(crate) seats: BTreeMap<u64, Seat<T>>,
    pub(crate) mail: VecDeque<Posted>,
    pub(crate) resting: Vec<u64>,
    pub(crate) outs: Vec<Away>,
    /// The threads that started a call, by rising number.
    pub(crate) roll: Vec<u64>,
}

impl<T: Drop> Hall<T> {
    pub(crate) fn new(alloc: Global) -> Hall<T>
        ensures faces { (r : ℕ) → seat_at result r ≡ None }
        ensures mail { result.mail.items ≡ [] }
        ensures resting { result.resting.items ≡ [] }
        ensures outs { result.outs.items ≡ [] }
        ensures roll { result.roll.items ≡ [] }
    {
        Hall {
            alloc,
            seats: BTreeMap::new(alloc),
            mail: VecDeque::new(alloc),
            resting: Vec::new(alloc),
            outs: Vec::new(alloc),
            roll: Vec::new(alloc),
        }
    }

    /// Makes a seat for a thread that has none.
    pub(crate) fn settle(&mut self, thread: ThreadId) -> Result<(), NoMemory>
        ensures grows { Grows self.old self.new }
        ensures seat { OnOk result (HasSeat self.new thread.n) }
    {
        if !self.seats.contains_key(&thread.n) {
            let seat = Seat {
                place: Place::Fresh,
                calls: 0,
                log: Vec::new(self.alloc),
            };
            self.seats.insert(thread.n, seat)?;
        }
        Ok(())
    }

    /// Makes room for so many calls more, and to take a thread or give one back.
    fn reserve_places(&mut self, count: usize) -> Result<(), NoMemory>
        ensures grows { Grows self.old self.new }
        ensures mail { OnOk result (deque_len self.new.mail + count
            ≤ deque_capacity self.new.mail) }
        ensures resting { OnOk result (vec_len self.new.resting + 1
            ≤ vec_capacity self.new.resting) }
        ensures outs { OnOk result (vec_len self.new.outs + 1 ≤ vec_capacity self.new.outs) }
        ensures roll { OnOk result (vec_len self.new.roll + 1 ≤ vec_capacity self.new.roll) }
    {
        self.mail.reserve(count)?;
        self.resting.reserve(1)?;
        self.outs.reserve(1)?;
        self.roll.reserve(1)?;
        Ok(())
    }

    /// Makes a seat for each thread that the items send a call to.
    fn settle_receivers(&mut self, items: &Items) -> Result<(), NoMemory>
        ensures grows { Grows self.old self.new }
        ensures seats { OnOk result (All (HasSeat self.new) (receivers items.now)) }
    {
        for item in items.as_slice() {
            self.settle_receiver(item)?;
        }
        Ok(())
    }

    /// Makes a seat for the thread that the item sends a call to, if it does.
    fn settle_receiver(&mut self, item: &Item) -> Result<(), NoMemory>
        ensures grows { Grows self.old self.new }
        ensures seats { OnOk result (All (HasSeat self.new) (receivers (item.now ∷ []))) }
    {
        match item {
            Item::Send { to, call: _ } => self.settle(*to),
            Item::Line { text: _ } => Ok(()),
        }
    }

    /// Makes room for so many lines more in the log of each thread that is out.
    fn reserve_logs(&mut self, count: usize) -> Result<(), NoMemory>
        ensures grows { Grows self.old self.new }
        ensures logs { OnOk result
            (All (λ away. HasLogRoom count self.new away.thread.n) self.new.outs.items) }
    {
        for place in 0..self.outs.len() {
            let away = self.outs[place];
            self.reserve_log(away.thread, count)?;
        }
        Ok(())
    }

    /// Makes room for so many lines more in the log of a thread.
    fn reserve_log(&mut self, thread: ThreadId, count: usize) -> Result<(), NoMemory>
        ensures grows { Grows self.old self.new }
        ensures log { OnOk result (HasLogRoom count self.new thread.n) }
    {
        self.settle(thread)?;
        let Some(seat) = self.seats.get_mut(&thread.n) else {
            unreachable!()
        };
        seat.log.reserve(count)?;
        Ok(())
    }

    /// Makes room to post these items, by any thread that is out, and to take a thread or to give one back.
    pub(crate) fn reserve(&mut self, items: &Items) -> Result<(), NoMemory>
        ensures grows { Grows self.old self.new }
        ensures room { OnOk result (HasRoom items.now self.new) }
    {
        let count = items.len();
        self.reserve_places(count)?;
        self.settle_receivers(items)?;
        self.reserve_logs(count)?;
        Ok(())
    }

    /// Is the thread at home?
    pub(crate) fn is_home(&self, thread: ThreadId) -> bool
        ensures { IsTrue result ↔ IsAtHome (face self.now thread.n).place }
    {
        match self.seats.get(&thread.n) {
            Some(seat) => match seat.place {
                Place::Out { worker: _ } => false,
                _ => true,
            },
            None => true,
        }
    }

    /// The thread of the first call that waits for a thread at home.
    fn first_at_home(&self) -> Option<ThreadId>
        ensures { MatchOption result (NoneAtHome self.now) (IsAwaited self.now) }
    {
        for place in 0..self.mail.len() {
            let thread = self.mail[place].to;
            if self.is_home(thread) {
                return Some(thread);
            }
        }
        None
    }

    /// Takes out the first call that waits for the thread, if one does.
    fn collect(&mut self, thread: ThreadId) -> Option<Call>
        ensures none { IfNone result (NoneFor thread.n self.old.mail.items) }
        ensures some { IfSome result
            (λ call. TakesFirst thread.n call self.old.mail.items self.new.mail.items) }
        ensures seats { self.new.seats ≡ self.old.seats }
        ensures resting { self.new.resting ≡ self.old.resting }
        ensures outs { self.new.outs ≡ self.old.outs }
        ensures roll { self.new.roll ≡ self.old.roll }
    {
        let place = self.place_of(thread)?;
        match self.mail.remove(place) {
            Some(posted) => Some(posted.call),
            None => None,
        }
    }

    /// The place of the first call that waits for the thread.
    fn place_of(&self, thread: ThreadId) -> Option<usize>
        ensures none { IfNone result (NoneFor thread.n self.now.mail.items) }
        ensures some { IfSome result (λ place. IsFirstFor thread.n self.now.mail.items place) }
    {
        for place in 0..self.mail.len() {
            if self.mail[place].to.n == thread.n {
                return Some(place);
            }
        }
        None
    }

    /// Does a call wait for the thread?
    pub(crate) fn has_mail(&self, thread: ThreadId) -> bool
        ensures { MatchBool result (¬ NoneFor thread.n self.now.mail.items)
            (NoneFor thread.n self.now.mail.items) }
    {
        self.place_of(thread).is_some()
    }

    /// The thread that a worker has, if it has one.
    pub(crate) fn out_at(&self, worker: u32) -> Option<ThreadId>
        ensures { MatchOption result (HasNothing worker self.now.outs.items)
            (HasThread worker self.now.outs.items) }
    {
        for away in self.outs.as_slice() {
            if away.worker == worker {
                return Some(away.thread);
            }
        }
        None
    }

    /// Does any call wait?
    pub(crate) fn has_any_mail(&self) -> bool
        ensures { MatchBool result (¬ (self.now.mail.items ≡ [])) (self.now.mail.items ≡ []) }
    {
        !self.mail.is_empty()
    }

    /// Is some thread out?
    pub(crate) fn has_out(&self) -> bool
        ensures { MatchBool result (¬ (self.now.outs.items ≡ [])) (self.now.outs.items ≡ []) }
    {
        !self.outs.is_empty()
    }

    /// The thread of least number that is suspended at home, else the one that the first call waits for.
    pub(crate) fn first_arrived(&self) -> Option<ThreadId>
        ensures { ComesFirst self.now result }
    {
        match self.resting.iter().copied().min() {
            Some(n) => Some(ThreadId { n }),
            None => match self.mail.front() {
                Some(posted) => Some(posted.to),
                None => None,
            },
        }
    }

    /// Marks a thread as no longer suspended at home.
    fn wake(&mut self, thread: ThreadId)
        ensures resting { self.new.resting.items
            ≡ filter (λ other. not (other == thread.n)) self.old.resting.items }
        ensures seats { self.new.seats ≡ self.old.seats }
        ensures mail { self.new.mail ≡ self.old.mail }
        ensures outs { self.new.outs ≡ self.old.outs }
        ensures roll { self.new.roll ≡ self.old.roll }
    {
        self.resting.retain(|other| *other != thread.n);
    }

    /// Is the thread suspended at home?
    pub(crate) fn is_suspended(&self, thread: ThreadId) -> bool
        ensures { IsTrue result ↔ IsResting (face self.now thread.n).place }
    {
        match self.seats.get(&thread.n) {
            Some(seat) => matches!(&seat.place, Place::Suspended(_)),
            None => false,
        }
    }

    /// Is the thread suspended at home, or, where calls may start, at home with a call that waits for it?
    pub(crate) fn can_go(&self, thread: ThreadId, may_start: bool) -> bool
        ensures { IsTrue result ↔ CanGo may_start self.now thread.n }
    {
        if self.is_suspended(thread) {
            return true;
        }
        if may_start && self.is_home(thread) {
            return self.has_mail(thread);
        }
        false
    }

    /// A thread that is suspended at home, or, where calls may start, one at home that a call waits for.
    pub(crate) fn any_ready(&self, may_start: bool) -> Option<ThreadId>
        ensures { MatchOption result (NoneMayGo may_start self.now) (MayGo may_start self.now) }
    {
        if let Some(n) = self.resting.first() {
            return Some(ThreadId { n: *n });
        }
        if may_start {
            return self.first_at_home();
        }
        None
    }

    /// A worker takes a thread, to go on with its call or to begin the first one that waits for it.
    pub(crate) fn send_out(&mut self, worker: u32, thread: ThreadId) -> (Option<T>, Option<Call>)
        requires can { IsResting (face self.old thread.n).place ⊎ CanBegin self.old thread.n }
        requires room { vec_len self.old.outs + 1 ≤ vec_capacity self.old.outs }
        requires few { (face self.old thread.n).calls ≤ 100000000 }
        requires roll { vec_len self.old.roll + 1 ≤ vec_capacity self.old.roll }
        requires rising { IsStrictlyIncreasing self.old.roll.items }
        ensures { Departs worker thread result.0 result.1 self.old self.new }
    {
        if self.is_suspended(thread) {
            let vt = self.resume(worker, thread);
            return (Some(vt), None);
        }
        let (vt, call) = self.begin(worker, thread);
        (vt, Some(call))
    }

    /// A worker takes a thread that is suspended.
    fn resume(&mut self, worker: u32, thread: ThreadId) -> T
        requires suspended { IsResting (face self.old thread.n).place }
        requires room { vec_len self.old.outs + 1 ≤ vec_capacity self.old.outs }
        requires few { (face self.old thread.n).calls < 2 ^ 64 }
        ensures place { (face self.old thread.n).place ≡ Suspended result }
        ensures leaves { Leaves worker thread 0 self.old self.new }
        ensures resting { Wakes thread.n self.old.resting.items self.new.resting.items }
        ensures mail { self.new.mail ≡ self.old.mail }
        ensures roll { self.new.roll ≡ self.old.roll }
    {
        self.wake(thread);
        match self.leave(worker, thread, 0) {
            Place::Suspended(vt) => vt,
            _ => unreachable!(),
        }
    }

    /// A worker takes a thread to begin the first call that waits for it.
    fn begin(&mut self, worker: u32, thread: ThreadId) -> (Option<T>, Call)
        requires seat { HasSeat self.old thread.n }
        requires home { IsAtHome (face self.old thread.n).place
            × ¬ IsResting (face self.old thread.n).place }
        requires waits { ¬ NoneFor thread.n self.old.mail.items }
        requires room { vec_len self.old.outs + 1 ≤ vec_capacity self.old.outs }
        requires few { (face self.old thread.n).calls ≤ 100000000 }
        requires roll { vec_len self.old.roll + 1 ≤ vec_capacity self.old.roll }
        requires rising { IsStrictlyIncreasing self.old.roll.items }
        ensures place { WasIdle result.0 (face self.old thread.n).place }
        ensures leaves { Leaves worker thread 1 self.old self.new }
        ensures resting { self.new.resting ≡ self.old.resting }
        ensures mail { TakesFirst thread.n result.1 self.old.mail.items self.new.mail.items }
        ensures roll { Enrols thread.n self.old.roll.items self.new.roll.items }
    {
        let Some(call) = self.collect(thread) else {
            unreachable!()
        };
        enrol(&mut self.roll, thread);
        match self.leave(worker, thread, 1) {
            Place::Fresh => (None, call),
            Place::Idle(vt) => (Some(vt), call),
            _ => unreachable!(),
        }
    }

    /// A worker has the thread, which starts `begun` calls more: none or one. The answer is where the thread was.
    fn leave(&mut self, worker: u32, thread: ThreadId, begun: u64) -> Place<T>
        requires seat { HasSeat self.old thread.n }
        requires room { vec_len self.old.outs + 1 ≤ vec_capacity self.old.outs }
        requires few { (face self.old thread.n).calls + begun < 2 ^ 64 }
        ensures place { result ≡ (face self.old thread.n).place }
        ensures leaves { Leaves worker thread begun self.old self.new }
        ensures resting { self.new.resting ≡ self.old.resting }
        ensures mail { self.new.mail ≡ self.old.mail }
        ensures roll { self.new.roll ≡ self.old.roll }
    {
        let away = Away { worker, thread };
        let Ok(()) = self.outs.push(away) else {
            unreachable!()
        };
        let Some(seat) = self.seats.get_mut(&thread.n) else {
            unreachable!()
        };
        seat.calls += begun;
        std::mem::replace(&mut seat.place, Place::Out { worker })
    }

    /// The worker's thread comes home with its virtual thread, suspended if its segment was yielded, and its items are
    /// posted.
    pub(crate) fn give_back(&mut self, worker: u32, thread: ThreadId, vt: T, items: Items, end: End)
        requires room { HasRoom items self.old }
        requires out { Contains self.old.outs.items (record { worker = worker; thread = thread }) }
        ensures yielded { end ≡ Yielded
            → ComesToRest worker thread vt items (lines items) self.old self.new }
        ensures ended { ¬ (end ≡ Yielded)
            → ComesBack worker thread (Idle vt) items (lines items) self.old self.new }
    {
        if end != End::Yielded {
            self.come_home(worker, thread, Place::Idle(vt), items);
            return;
        }
        self.come_home(worker, thread, Place::Suspended(vt), items);
        self.rest(thread);
    }

    /// The worker's thread comes home to this place, and its items are posted.
    fn come_home(&mut self, worker: u32, thread: ThreadId, place: Place<T>, items: Items)
        requires room { HasRoom items self.old }
        requires out { Contains self.old.outs.items (record { worker = worker; thread = thread }) }
        ensures { ComesBack worker thread place items (lines items) self.old self.new }
    {
        self.arrive(thread, place, items);
        self.outs.retain(|away| away.worker != worker);
    }

    /// The thread is at home at this place, and its items are posted.
    fn arrive(&mut self, thread: ThreadId, place: Place<T>, items: Items)
        requires mail { deque_len self.old.mail + length items ≤ deque_capacity self.old.mail }
        requires log { HasLogRoom (length items) self.old thread.n }
        ensures faces { (r : ℕ)
            → face self.new r
            ≡ put_at (face self.old) thread.n
            (back_home place (lines items) (face self.old thread.n)) r }
        ensures seats { (r : ℕ) → HasSeat self.old r → HasSeat self.new r }
        ensures mail { self.new.mail.items ≡ self.old.mail.items ++ posted_by items }
        ensures resting { self.new.resting ≡ self.old.resting }
        ensures outs { self.new.outs ≡ self.old.outs }
        ensures roll { self.new.roll ≡ self.old.roll }
    {
        let Some(seat) = self.seats.get_mut(&thread.n) else {
            unreachable!()
        };
        deliver(items, &mut self.mail, &mut seat.log);
        seat.place = place;
    }

    /// Marks a thread as suspended at home.
    fn rest(&mut self, thread: ThreadId)
        requires { vec_len self.old.resting + 1 ≤ vec_capacity self.old.resting }
        ensures resting { self.new.resting.items ≡ self.old.resting.items ++ thread.n ∷ [] }
        ensures seats { self.new.seats ≡ self.old.seats }
        ensures mail { self.new.mail ≡ self.old.mail }
        ensures outs { self.new.outs ≡ self.old.outs }
        ensures roll { self.new.roll ≡ self.old.roll }
    {
        let Ok(()) = self.resting.push(thread.n) else {
            unreachable!()
        };
    }

    /// The thread at a place of those that ran, with how many calls it started and its lines; `None` past the end.
    pub(crate) fn log(&self, place: usize) -> Option<(ThreadId, u64, &[Blob])>
        requires { (r : ℕ) → Contains self.now.roll.items r → 0 < (face self.now r).calls }
        ensures { MatchOption result (length self.now.roll.items ≤ place)
            (λ log. IsLogOf self.now place log.0.n log.1 log.2.now) }
    {
        let n = *self.roll.get(place)?;
        let Some(seat) = self.seats.get(&n) else {
            unreachable!()
        };
        Some((ThreadId { n }, seat.calls, seat.log.as_slice()))
    }

    /// Makes room for one more call to a thread.
    pub(crate) fn reserve_call(&mut self, to: ThreadId) -> Result<(), NoMemory>
        ensures grows { Grows self.old self.new }
        ensures mail { OnOk result (deque_len self.new.mail + 1 ≤ deque_capacity self.new.mail) }
        ensures seat { OnOk result (HasSeat self.new to.n) }
    {
        self.reserve_places(1)?;
        self.settle(to)
    }

    /// A call waits behind all others.
    pub(crate) fn post(&mut self, to: ThreadId, call: Call)
        requires { deque_len self.old.mail + 1 ≤ deque_capacity self.old.mail }
        ensures mail { self.new.mail.items
            ≡ self.old.mail.items ++ record { to = to; call = call } ∷ [] }
        ensures seats { self.new.seats ≡ self.old.seats }
        ensures resting { self.new.resting ≡ self.old.resting }
        ensures outs { self.new.outs ≡ self.old.outs }
        ensures roll { self.new.roll ≡ self.old.roll }
    {
        let Ok(()) = self.mail.push_back(Posted { to, call }) else {
            unreachable!()
        };
    }
}

/// Puts a thread among those that ran, in its place by number, unless it is there.
fn enrol(roll: &mut Vec<u64>, thread: ThreadId)
    requires room { vec_len roll.old + 1 ≤ vec_capacity roll.old }
    requires rising { IsStrictlyIncreasing roll.old.items }
    ensures { Enrols thread.n roll.old.items roll.new.items }
{
    let Err(place) = roll.binary_search(&thread.n) else {
        return;
    };
    let Ok(()) = roll.insert(place, thread.n) else {
        unreachable!()
    };
}

/// Posts items in their order: calls behind the mail, and lines behind the log.
fn deliver(items: Items, mail: &mut VecDeque<Posted>, log: &mut Vec<Blob>)
    requires mail { deque_len mail.old + length items ≤ deque_capacity mail.old }
    requires log { vec_len log.old + length items ≤ vec_capacity log.old }
    ensures mail { mail.new.items ≡ mail.old.items ++ posted_by items }
    ensures log { log.new.items ≡ log.old.items ++ lines items }
{
    let mut left = items.into_vec();
    left.reverse();
    while let Some(item) = left.pop() {
        deliver_one(item, mail, log);
    }
}

/// Posts one item.
fn deliver_one(item: Item, mail: &mut VecDeque<Posted>, log: &mut Vec<Blob>)
    requires mail { deque_len mail.old + 1 ≤ deque_capacity mail.old }
    requires log { vec_len log.old + 1 ≤ vec_capacity log.old }
    ensures mail { mail.new.items ≡ mail.old.items ++ posted_by (item ∷ []) }
    ensures log { log.new.items ≡ log.old.items ++ lines (item ∷ []) }
    ensures mail_room { (deque_len mail.new ≤ deque_len mail.old + 1)
        × (deque_capacity mail.old ≤ deque_capacity mail.new) }
    ensures log_room { (vec_len log.new ≤ vec_len log.old + 1)
        × (vec_capacity log.old ≤ vec_capacity log.new) }
{
    match item {
        Item::Send { to, call } => {
            let Ok(()) = mail.push_back(Posted { to, call }) else {
                unreachable!()
            };
        }
        Item::Line { text } => {
            let Ok(()) = log.push(text) else {
                unreachable!()
            };
        }
    }
}
