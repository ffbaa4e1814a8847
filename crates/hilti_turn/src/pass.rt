ghost use Rattle.std.specs.Prelude.{◌≡◌};

use crate::journalled::Journalled;
use crate::view::View;
use atomic_table::Seat;

/// The right to take turns with one value. A thread needs its own.
#[derive(Drop)]
pub struct Pass<V: Journalled> {
    pub(crate) seat: Seat<Option<V>, View<V::Entry, V::About>>,
    pub(crate) number: u32,
}

impl<V: Journalled> Pass<V> {
    ghost use Rattle.hilti_turn.specs.Passes.{number};

    /// The number of the pass: its place, from 0, among those that were made with the turn.
    pub fn number(&self) -> u32
        ensures { result ≡ number self.now }
    {
        self.number
    }
}
