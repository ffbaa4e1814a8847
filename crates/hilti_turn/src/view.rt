//! What a seat at the table knows, and the rule that every step keeps.
//! Word 0 is the number of tickets given, word 1 the number of tickets served and word 2 the number of entries, each
//! modulo 2^64. The one slot has the value, unless a seat is inside.
use crate::journalled::Journalled;
use atomic_table::TableRule;
use std::collections::LinkedList;
use std::marker::PhantomData;
use std::snapshot::Snapshot;

pub enum Stage {
    Outside,
    /// It has a ticket that is not served yet.
    Waiting,
    /// Its ticket is served, and it has the slot.
    Inside,
    /// Its view was taken over by another seat.
    Spent,
}

/// What was known of a pass that another took over.
pub struct Heard<E, A> {
    pub number: u64,
    pub about: Option<A>,
    pub seen: LinkedList<E>,
    pub mine: LinkedList<E>,
}

/// What a seat knows. No value of it is made.
pub struct View<E, A> {
    pub stage: Stage,
    /// The ticket of a seat that is waiting or inside. It has no upper bound.
    pub ticket: u64,
    pub number: u64,
    /// How many seats there are, known to seat 0 alone.
    pub made: u64,
    pub visits: u64,
    pub about: Option<A>,
    pub seen: LinkedList<E>,
    pub mine: LinkedList<E>,
    pub heard: LinkedList<Heard<E, A>>,
}

/// What the table is told when it is made. It has no `V` but as clauses see it.
#[derive(Drop)]
pub struct Opening<V> {
    pub value: Snapshot<V>,
    pub seats: u32,
}

pub struct TurnRule<V> {
    value: PhantomData<V>,
}

impl<V: Journalled> TableRule<Option<V>, View<V::Entry, V::About>, Opening<V>> for TurnRule<V> {
    ghost use Rattle.hilti_turn.specs.Rule.{InTurn, first_view};

    ghost holds = { λ key. InTurn V.entries V.maker V.about (V.about key.value.value) key.seats };

    ghost first = { λ key. first_view (V.about key.value.value) };
}
