ghost use Rattle.std.specs.Prelude.{◌≡◌, ◌↔◌, option_map, Some, IfSome, IfNone, IsSome, IsTrue};
ghost use Rattle.hilti_heap.specs.Cells.{Stands, times_at};
ghost use Rattle.std.specs.Borrow.{sem};
ghost use Rattle.hilti_heap.specs.Lending.{LendsIn};
ghost use Rattle.hilti_heap.specs.declared.cells.Cell as spec;

use crate::object::Object;
use hilti_values::Reference;

/// An object, its serial, and how many holders it has.
#[derive(Debug, Drop)]
pub(crate) struct Cell {
    pub(crate) serial: u64,
    pub(crate) count: u64,
    pub(crate) object: Object,
}

/// Is the object of this serial at this place?
fn is_at(cells: &[Option<Cell>], place: usize, serial: u64) -> bool
    ensures { IsTrue result ↔ Stands serial cells.now place }
{
    match cells.get(place) {
        Some(Some(cell)) => cell.serial == serial,
        _ => false,
    }
}

/// The place of an object; `None` exactly where it is at none. That of the reference comes first, and no other is ever
/// looked at for a reference that this heap gave.
pub(crate) fn place_of(cells: &[Option<Cell>], at: &Reference) -> Option<usize>
    ensures some { IfSome result (λ place. Stands at.now cells.now place) }
    ensures none { IfNone result (times_at at.now cells.now ≡ 0) }
{
    let serial = at.serial();
    let hint = at.place();
    if is_at(cells, hint, serial) {
        return Some(hint);
    }
    for place in 0..cells.len() {
        if is_at(cells, place, serial) {
            return Some(place);
        }
    }
    None
}

/// The object at a place, for writing.
pub(crate) fn object_of(place: &mut Option<Cell>) -> &mut Object
    requires { IsSome place.old }
    ensures* lends { sem 𝓛 (LendsIn place.entry result) }
    ensures value { option_map (λ (cell : spec.Cell). cell.object) place.old ≡ Some result.now }
{
    match place {
        Some(cell) => &mut cell.object,
        None => unreachable!(),
    }
}
