ghost use Rattle.std.specs.Prelude.{◌≡◌, ◌+◌, ◌≤◌, ◌<◌, ◌^◌, ◌↔◌, ℕ, [], Some};
ghost use Rattle.std.specs.Prelude.{IfOk, OnOk, OnErr, IfErr, IsTrue};
ghost use Rattle.std.specs.Borrow.{sem};
ghost use Rattle.std.specs.Option.{option_copied, option_copied_mut};
ghost use Rattle.hilti_heap.specs.Cells.{Stands, IsCell, object_at, times_at, kept_in};
ghost use Rattle.hilti_heap.specs.Changed.{with_object};
ghost use Rattle.hilti_heap.specs.Held.{is, held, all_held};
ghost use Rattle.hilti_heap.specs.Kept.{Covers, AreKept, Makes, Holds, Overflows};
ghost use Rattle.hilti_heap.specs.Kept.{KeepsObjects, Releases, Changes};
ghost use Rattle.hilti_heap.specs.declared.cells.Cell as spec;
ghost use Rattle.hilti_heap.specs.declared.object.Object.{Object};

use crate::cells::{Cell, object_of, place_of};
use crate::object::Object;
use crate::shelf::Shelf;
use hilti_base::NoMemory;
use hilti_values::{Reference, Value, Values};
use std::alloc::Global;
use std::marker::Model;

/// Objects by serial, each with a count of its holders: those in other objects, and those that the caller tells by
/// `hold` and `release`. An object that lost its last holder is given back. No serial is drawn twice. Contracts see the
/// next serial, and the objects by place with their serials and counts.
#[derive(Debug, Drop)]
pub struct Heap {
    shelf: Shelf,
    next: u64,
}

impl Model for Heap {
    ghost use Rattle.hilti_heap.specs.Kept.{Kept};
    ghost use Rattle.std.specs.Coded.{codes};
    ghost use Rattle.hilti_values.specs.contracts.value.Value as values;

    ghost Value = { Kept };

    ghost coded = { Prim.hlevel (codes, values.the_row.coded) };

    ghost use Rattle.hilti_heap.specs.Heaps.{seen, Sound};

    ghost view = { seen };

    ghost invariant = { Sound };
}

impl Heap {
    ghost use Rattle.hilti_heap.specs.LendsHeap.{LendsAt, LendsObject};

    /// A heap without objects. It takes no memory yet.
    pub fn new(alloc: Global) -> Heap
        ensures next { result.next ≡ 0 }
        ensures cells { result.cells ≡ [] }
    {
        Heap {
            shelf: Shelf {
                cells: Vec::new(alloc),
                free: Vec::new(alloc),
                dying: Vec::new(alloc),
                kept: 0,
            },
            next: 0,
        }
    }

    /// How many objects are kept.
    pub fn kept(&self) -> u64
        ensures { result ≡ kept_in self.now.cells }
    {
        self.shelf.kept
    }

    /// Whether no serial can be drawn.
    pub fn is_full(&self) -> bool
        ensures { IsTrue result ↔ (2 ^ 63 ≤ self.now.next) }
    {
        self.next >= 1 << 63
    }

    /// The next serial, for an entry that is no object.
    pub fn draw(&mut self) -> u64
        requires { self.old.next < 2 ^ 63 }
        ensures serial { result ≡ self.old.next }
        ensures next { self.new ≡ record self.old { next = self.old.next + 1 } }
    {
        let serial = self.next;
        self.next += 1;
        serial
    }

    /// A new object with the next serial, which nothing holds yet. Without memory nothing changes, and the object comes
    /// back.
    pub fn make(&mut self, object: Object) -> Result<Reference, (Object, NoMemory)>
        requires { self.old.next < 2 ^ 63 }
        ensures ok { IfOk result (λ serial. Makes self.old self.new serial object) }
        ensures err { OnErr result (self.new ≡ self.old) }
        ensures back { IfErr result (λ refused. refused.0 ≡ object) }
    {
        match self.shelf.place_for() {
            Ok(place) => {
                let serial = self.next;
                self.shelf.put(place, serial, object);
                self.next += 1;
                Ok(Reference::new(serial, place))
            }
            Err(NoMemory) => Err((object, NoMemory)),
        }
    }

    /// An object has one holder more. It is refused only where no number counts them, and nothing changes then.
    pub fn hold(&mut self, at: &Reference) -> Result<(), NoMemory>
        requires { 1 ≤ times_at at.now self.old.cells }
        ensures ok { OnOk result (Holds self.old self.new (λ s. is s at.now)) }
        ensures err { OnErr result (self.new ≡ self.old) }
        ensures full { OnErr result (Overflows self.old (λ s. is s at.now)) }
    {
        self.shelf.raise(at)
    }

    /// The objects that a value holds have one holder more for each time that it holds them. It is refused only where
    /// no number counts them; objects stay then, and some of their counts may have risen.
    pub fn hold_value(&mut self, value: &Value) -> Result<(), NoMemory>
        requires { AreKept self.old (λ s. held s value.now) }
        ensures ok { OnOk result (Holds self.old self.new (λ s. held s value.now)) }
        ensures full { OnErr result (Overflows self.old (λ s. held s value.now)) }
        ensures err { OnErr result (KeepsObjects self.old self.new) }
    {
        self.shelf.raise_value(value)
    }

    /// The same for each of some values.
    pub fn hold_values(&mut self, values: &Values) -> Result<(), NoMemory>
        requires { AreKept self.old (λ s. all_held s values.now) }
        ensures ok { OnOk result (Holds self.old self.new (λ s. all_held s values.now)) }
        ensures full { OnErr result (Overflows self.old (λ s. all_held s values.now)) }
        ensures err { OnErr result (KeepsObjects self.old self.new) }
    {
        self.shelf.raise_values(values)
    }

    /// An object has one holder less. Where it was the last, the object is given back, and with it each object that
    /// only it held.
    pub fn release(&mut self, at: &Reference)
        requires { Covers self.old (λ s. is s at.now) }
        ensures { Releases self.old self.new (λ s. is s at.now) }
    {
        self.shelf.lower(at);
        self.shelf.drain();
    }

    /// The same for each object that a value holds, as often as it holds it.
    pub fn release_value(&mut self, value: &Value)
        requires { Covers self.old (λ s. held s value.now) }
        ensures { Releases self.old self.new (λ s. held s value.now) }
    {
        self.shelf.lower_value(value);
        self.shelf.drain();
    }

    /// The same for each of some values.
    pub fn release_values(&mut self, values: &Values)
        requires { Covers self.old (λ s. all_held s values.now) }
        ensures { Releases self.old self.new (λ s. all_held s values.now) }
    {
        self.shelf.lower_values(values);
        self.shelf.drain();
    }

    /// An object; `None` exactly where no object has the serial.
    pub fn look(&self, at: &Reference) -> Option<&Object>
        ensures { option_copied result ≡ object_at at.now self.now.cells }
    {
        match place_of(self.shelf.cells.as_slice(), at) {
            Some(place) => object_in(self.shelf.cells.as_slice(), place),
            None => None,
        }
    }

    /// An object, for writing; `None` exactly where no object has the serial. No count changes: the caller holds what
    /// it puts into the object, and releases what it takes out.
    pub fn change(&mut self, at: &Reference) -> Option<&mut Object>
        ensures* writes_back { sem 𝓛 (LendsAt self.entry at.now result) }
        ensures value { option_copied_mut result ≡ object_at at.now self.old.cells }
        ensures changes { (old new : Object) → object_at at.now self.old.cells ≡ Some old →
            Changes self.old (with_object self.old at.now new) at.now old new }
        ensures keeps { (old : Object) → object_at at.now self.old.cells ≡ Some old →
            with_object self.old at.now old ≡ self.old }
    {
        match place_of(self.shelf.cells.as_slice(), at) {
            Some(place) => Some(self.object_mut(at, place)),
            None => None,
        }
    }

    fn object_mut(&mut self, at: &Reference, place: usize) -> &mut Object
        requires { Stands at.now self.old.cells place }
        ensures* writes_back { sem 𝓛 (LendsObject self.entry at.now result) }
        ensures value { object_at at.now self.old.cells ≡ Some result.now }
    {
        object_of(&mut self.shelf.cells[place])
    }
}

/// The object at a place.
fn object_in(cells: &[Option<Cell>], place: usize) -> Option<&Object>
    ensures { (cell : spec.Cell) → IsCell cells.now place cell →
        option_copied result ≡ Some cell.object }
{
    match cells.get(place) {
        Some(Some(cell)) => Some(&cell.object),
        _ => None,
    }
}
