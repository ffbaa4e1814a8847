//! What each step on the table tells its seat.
ghost use Rattle.hilti_turn.specs.Rule.{claimed, looked, counted, released, one_more, newcomer};
ghost use Rattle.hilti_turn.specs.Rule.{joined, spent};

use crate::journalled::Journalled;
use crate::view::View;
use atomic_table::{Join, Play, Split};
use std::marker::PhantomData;

pub(crate) struct Claim<V> {
    value: PhantomData<V>,
}

impl<V: Journalled> Play<Option<V>, View<V::Entry, V::About>> for Claim<V> {
    ghost then = { claimed };
}

pub(crate) struct Look<V> {
    value: PhantomData<V>,
}

impl<V: Journalled> Play<Option<V>, View<V::Entry, V::About>> for Look<V> {
    ghost then = { looked V.entries V.maker V.about };
}

pub(crate) struct Count<V> {
    value: PhantomData<V>,
}

impl<V: Journalled> Play<Option<V>, View<V::Entry, V::About>> for Count<V> {
    ghost then = { counted V.entries };
}

pub(crate) struct Release<V> {
    value: PhantomData<V>,
}

impl<V: Journalled> Play<Option<V>, View<V::Entry, V::About>> for Release<V> {
    ghost then = { released };
}

pub(crate) struct Seating<V> {
    value: PhantomData<V>,
}

impl<V: Journalled> Split<View<V::Entry, V::About>> for Seating<V> {
    ghost left = { one_more };

    ghost right = { newcomer };
}

pub(crate) struct Merging<V> {
    value: PhantomData<V>,
}

impl<V: Journalled> Join<View<V::Entry, V::About>> for Merging<V> {
    ghost both = { joined };

    ghost spent = { spent };
}
