ghost use Rattle.std.specs.Prelude.{◌≡◌, ◌<◌};

use crate::journalled::Journalled;
use crate::pass::Pass;
use crate::plays::{Claim, Count, Look, Merging, Release, Seating};
use crate::view::{Opening, TurnRule, View};
use atomic_table::Table;
use hilti_base::NoMemory;
use std::alloc::Global;
use std::snapshot::Snapshot;
use std::sync::Wait;
use std::time::Duration;

/// The word that counts the tickets given.
const GIVEN: usize = 0;
/// The word that counts the tickets served: it has the ticket of the pass that may enter.
const SERVED: usize = 1;
/// The word that has the number of entries.
const COUNTED: usize = 2;
/// The first of the words that passes sleep on, which have 0 at all times.
const BEDS: usize = 3;
/// How many beds there are. At most so many passes wait at once, so each has one of its own.
const BED_COUNT: u64 = 64;
/// How many words there are.
const WORDS: usize = 67;
/// The slot that has the value.
const VALUE: usize = 0;
/// How far from the ticket that is served a pass sleeps until another ticket is served, and not in its bed.
const NEAR: u64 = 4;
/// The longest sleep in a bed, in milliseconds.
const NAP: u64 = 5;
/// The low half of a word, which is what a sleep looks at.
const LOW_HALF: u64 = 0xffff_ffff;

/// A lock for one value with a journal. Passes take turns in the order of their tickets.
#[derive(Drop)]
pub struct Turn<V: Journalled + Drop> {
    table: Table<Option<V>, View<V::Entry, V::About>, Opening<V>, TurnRule<V>, Global>,
    ghost counts: { (table.shared.table_id.words ≡ 67) × (table.shared.table_id.slots ≡ 1) },
    ghost some_seat: { 0 < table.shared.key.seats },
}

impl<V: Journalled + Drop + Send> Turn<V> {
    ghost use Rattle.std.specs.Prelude.{◌≡◌, ◌<◌, ◌≤◌, ℕ, ◌+◌, ◌%◌, ◌^◌, [], ◌∷◌, ◌++◌, length};
    ghost use Rattle.std.specs.Prelude.{drop, IfOk, vec_len, Some, None, All, ◌≢◌};
    ghost use mathlib.Core.List.{IsPrefix};
    ghost use Rattle.hilti_turn.specs.Journal.{made_by, GoesOnBy};
    ghost use Rattle.hilti_turn.specs.Rule.{ComesIn, Tells, told_of, one_more, joined};
    ghost use Rattle.hilti_turn.specs.Passes.{number, about, seen, mine, visits, IsOutside};
    ghost use Rattle.hilti_turn.specs.Passes.{IsInside, IsWaiting, HasSlot, IsFresh, IsSamePass};
    ghost use Rattle.hilti_turn.specs.Turns.{seat_count, IsPassOf, AreFresh, AreAll, HasNumber};

    /// A turn with a value that has no entries yet, and its passes, which are numbered from 0 and stand in this order.
    /// On want of memory the value is dropped.
    pub fn make(alloc: Global, value: V, seats: u32) -> Result<(Turn<V>, Vec<Pass<V>>), NoMemory>
        requires seats { (1 ≤ seats) × (seats ≤ 65) }
        requires empty { V.entries value ≡ [] }
        ensures seats { IfOk result (λ r. (seat_count r.0 ≡ seats) × (vec_len r.1 ≡ seats)) }
        ensures passes { IfOk result (λ r. AreFresh r.0 (V.about value) r.1.items) }
    {
        let mut passes = Vec::with_capacity(alloc, seats as usize)?;
        let (turn, mut first) = Turn::open(alloc, value, seats)?;
        for place in 1..seats {
            passes.push(turn.another(&mut first, place))?;
        }
        passes.insert(0, first)?;
        Ok((turn, passes))
    }

    /// Waits until the pass may have the value, and hands the value out to it.
    pub fn enter<R: Wait>(&self, rt: &R, pass: &mut Pass<V>) -> V
        requires own { IsPassOf self.now pass.old }
        requires outside { IsOutside pass.old }
        ensures own { IsPassOf self.now pass.new }
        ensures same { IsSamePass pass.old pass.new }
        ensures inside { IsInside pass.new }

        // What the pass saw begins the journal, and of its own entries the journal has just those that it made.
        ensures begins { IsPrefix (seen pass.old) (V.entries result) }
        ensures own_entries { made_by V.maker (number pass.old) (V.entries result) ≡ mine pass.old }
        ensures about { about pass.old ≡ Some (V.about result) }

        ensures seen { seen pass.new ≡ V.entries result }
        ensures mine { mine pass.new ≡ mine pass.old }
        ensures visits { visits pass.new ≡ visits pass.old + 1 }
    {
        let ticket = self.claim(pass);
        self.wait(rt, pass, ticket);
        self.take(pass)
    }

    /// Gives the value back. What the pass added to the journal are entries of its own.
    pub fn leave(&self, pass: &mut Pass<V>, value: V)
        requires own { IsPassOf self.now pass.old }
        requires inside { IsInside pass.old }
        requires grows { GoesOnBy V.maker (number pass.old) (seen pass.old) (V.entries value) }
        requires about { about pass.old ≡ Some (V.about value) }
        ensures own { IsPassOf self.now pass.new }
        ensures same { IsSamePass pass.old pass.new }
        ensures outside { IsOutside pass.new }

        ensures seen { seen pass.new ≡ V.entries value }
        ensures mine { mine pass.new
            ≡ mine pass.old ++ drop (length (seen pass.old)) (V.entries value) }
        ensures visits { visits pass.new ≡ visits pass.old }
    {
        let count = value.count();
        self.give(pass, value);
        self.table
            .shared
            .swap::<Count<V>>(&mut pass.seat, COUNTED, count);
        let served = self
            .table
            .shared
            .fetch_add::<Release<V>>(&mut pass.seat, SERVED, 1);
        self.wake(served.wrapping_add(1));
    }

    /// Ends the turn, and hands the value out.
    pub fn close(self, passes: Vec<Pass<V>>) -> V
        requires own { All (λ p. IsPassOf self p × IsOutside p) passes.items }
        requires all { AreAll self passes.items }
        ensures begins { All (λ p. IsPrefix (seen p) (V.entries result)) passes.items }
        ensures own_entries { All (λ p. made_by V.maker (number p) (V.entries result)
            ≡ mine p) passes.items }
        ensures no_others { All (λ e. HasNumber passes.items (V.maker e)) (V.entries result) }
        ensures about { All (λ p. about p ≡ Some (V.about result)) passes.items }
    {
        let last = self.gather(passes);
        let Turn { table } = self;
        let Pass { seat, number: _ } = last;
        let mut closed = table.close_with(seat);
        let slot = closed.take(VALUE);
        closed.free();
        let Some(value) = slot else { unreachable!() };
        value
    }

    fn open(alloc: Global, value: V, seats: u32) -> Result<(Turn<V>, Pass<V>), NoMemory>
        requires seats { (1 ≤ seats) × (seats ≤ 65) }
        requires empty { V.entries value ≡ [] }
        ensures turn { IfOk result (λ r. seat_count r.0 ≡ seats) }
        ensures pass { IfOk result (λ r. (number r.1 ≡ 0) × IsPassOf r.0 r.1
            × IsFresh (V.about value) r.1 × (r.1.seat.me.0.made ≡ 1)) }
    {
        let opening = Opening {
            value: Snapshot::of(&value),
            seats,
        };
        let words = Vec::from_elem(alloc, 0u64, WORDS)?;
        let mut slots = Vec::with_capacity(alloc, 1)?;
        slots.push(Some(value))?;
        match Table::new(alloc, words.as_slice(), slots, &opening) {
            Ok((table, seat)) => Ok((Turn { table }, Pass { seat, number: 0 })),
            Err(_refused) => Err(NoMemory),
        }
    }

    // One pass more, which the first one makes.
    fn another(&self, first: &mut Pass<V>, place: u32) -> Pass<V>
        requires own { IsPassOf self.now first.old × (number first.old ≡ 0) }
        requires outside { IsOutside first.old }
        requires place { (first.old.seat.me.0.made ≡ place) × (place < seat_count self.now) }
        ensures first { IsSamePass first.old first.new
            × (first.new.seat.me.0 ≡ one_more first.old.seat.me.0) × IsOutside first.new }
        ensures pass { (number result ≡ place) × IsPassOf self.now result }
        ensures fresh { (topic : V.About) → IsFresh topic first.old → IsFresh topic result }
    {
        let seat = self.table.shared.split_seat::<Seating<V>>(&mut first.seat);
        Pass {
            seat,
            number: place,
        }
    }

    // Draws the next ticket.
    fn claim(&self, pass: &mut Pass<V>) -> u64
        requires own { IsPassOf self.now pass.old }
        requires outside { IsOutside pass.old }
        ensures same { IsSamePass pass.old pass.new }
        ensures waits { IsWaiting result pass.new }
        ensures kept { (seen pass.new ≡ seen pass.old) × (mine pass.new ≡ mine pass.old)
            × (visits pass.new ≡ visits pass.old) }
    {
        self.table
            .shared
            .fetch_add::<Claim<V>>(&mut pass.seat, GIVEN, 1)
    }

    // Which ticket is served. Where it is the pass's own, the pass has the slot from then on.
    fn look(&self, pass: &mut Pass<V>, ticket: u64) -> u64
        requires own { IsPassOf self.now pass.old }
        requires waits { IsWaiting ticket pass.old }
        ensures same { IsSamePass pass.old pass.new }
        ensures own { result ≡ ticket
            → ComesIn V.entries V.maker V.about pass.old.seat.me pass.new.seat.me }
        ensures other { result ≢ ticket → pass.new.seat.me ≡ pass.old.seat.me }
    {
        self.table.shared.load::<Look<V>>(&mut pass.seat, SERVED)
    }

    // Looks until the pass's ticket is served.
    fn wait<R: Wait>(&self, rt: &R, pass: &mut Pass<V>, ticket: u64)
        requires own { IsPassOf self.now pass.old }
        requires waits { IsWaiting ticket pass.old }
        ensures same { IsSamePass pass.old pass.new }
        ensures comes_in { ComesIn V.entries V.maker V.about pass.old.seat.me pass.new.seat.me }
    {
        for _ in rt.forever() {
            let served = self.look(pass, ticket);
            if served == ticket {
                return;
            }
            self.sleep(rt, ticket, served);
        }
        unreachable!()
    }

    // Sleeps between two looks. Near its turn a pass sleeps on the word of the served tickets, and not at all where that
    // has changed since the look, so no wake is lost. Else it sleeps in its bed, where it is left alone until its turn.
    // No step changes a bed, so a wake may come before the sleep: a short limit makes up for it.
    fn sleep<R: Wait>(&self, rt: &R, ticket: u64, served: u64) {
        let shared = &self.table.shared;
        if ticket.wrapping_sub(served) <= NEAR {
            shared.park(rt, SERVED, (served & LOW_HALF) as u32);
        } else {
            shared.park_timeout(rt, bed(ticket), 0, Duration::from_millis(NAP));
        }
    }

    // Wakes the pass whose ticket is served, and those near it. Where that ticket isn't given yet, none sleeps.
    fn wake(&self, served: u64) {
        let shared = &self.table.shared;
        if shared.peek(GIVEN) != served {
            shared.wake_all(SERVED);
            shared.wake_one(bed(served));
        }
    }

    // Takes the value out of the slot.
    fn take(&self, pass: &mut Pass<V>) -> V
        requires own { IsPassOf self.now pass.old }
        requires has { (x : V) × HasSlot x pass.old }
        ensures value { HasSlot result pass.old }
        ensures same { IsSamePass pass.old pass.new }
        ensures inside { IsInside pass.new × (pass.new.seat.me.0 ≡ pass.old.seat.me.0) }
    {
        let slot = self.table.shared.exchange(&mut pass.seat, VALUE, None);
        let Some(value) = slot else { unreachable!() };
        value
    }

    // Puts the value into the slot.
    fn give(&self, pass: &mut Pass<V>, value: V)
        requires own { IsPassOf self.now pass.old }
        requires inside { IsInside pass.old }
        ensures same { IsSamePass pass.old pass.new }
        ensures has { HasSlot value pass.new × (pass.new.seat.me.0 ≡ pass.old.seat.me.0) }
    {
        let slot = self
            .table
            .shared
            .exchange(&mut pass.seat, VALUE, Some(value));
        let None = slot else { unreachable!() };
    }

    // The pass takes over what the other knew.
    fn absorb(&self, pass: &mut Pass<V>, other: Pass<V>)
        requires own { IsPassOf self.now pass.old × IsPassOf self.now other }
        requires outside { IsOutside pass.old × IsOutside other }
        ensures same { IsSamePass pass.old pass.new }
        ensures joined { (pass.new.seat.me.0 ≡ joined pass.old.seat.me.0 other.seat.me.0)
            × IsOutside pass.new }
    {
        let Pass { seat, number: _ } = other;
        self.table
            .shared
            .join_seat::<Merging<V>>(&mut pass.seat, seat);
    }

    // One pass that knows what all knew.
    fn gather(&self, mut passes: Vec<Pass<V>>) -> Pass<V>
        requires own { All (λ p. IsPassOf self.now p × IsOutside p) passes.items }
        requires some { 0 < vec_len passes }
        ensures own { IsPassOf self.now result × IsOutside result }
        ensures tells { All (λ p. Tells result.seat.me.0 (told_of p.seat.me.0)) passes.items }
    {
        let Some(mut last) = passes.pop() else {
            unreachable!()
        };
        while let Some(pass) = passes.pop() {
            self.absorb(&mut last, pass);
        }
        last
    }
}

// The word that the pass with this ticket sleeps on while it isn't near its turn.
fn bed(ticket: u64) -> usize
    ensures { result < 67 }
{
    BEDS + (ticket % BED_COUNT) as usize
}
