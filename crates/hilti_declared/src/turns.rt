//! Collections that are handed out in turn.
ghost use Rattle.std.specs.Prelude.{◌≡◌, drop};
ghost use Rattle.hilti_declared.specs.Turns.{first_or_none};

use hilti_base::Collection;
use std::alloc::Global;
use std::collections::VecDeque;

/// The next of some collections, and an empty one where none is left.
pub fn next_of<T: Drop>(alloc: Global, left: &mut VecDeque<Collection<T>>) -> Collection<T>
    ensures first { result ≡ first_or_none left.old.items }
    ensures others { left.new.items ≡ drop 1 left.old.items }
{
    match left.pop_front() {
        Some(next) => next,
        None => Collection::new(alloc),
    }
}
