ghost use Rattle.std.specs.Prelude.{◌≡◌, ℕ, ◌+◌, ◌-◌, ◌<◌, ◌≤◌, ◌^◌, ◌↔◌, [], length, slice_get, slice_set};
ghost use Rattle.std.specs.Prelude.{Some, None, IsTrue, IfOk, OnOk, OnErr};
ghost use Rattle.std.specs.Option.{option_copied};
ghost use Rattle.hilti_heap.specs.Held.{is, part, held, all_held, fields_held, object_held};
ghost use Rattle.hilti_heap.specs.Cells.{Stands, IsCell, new_cell, times_at, count_at, kept_in};
ghost use Rattle.hilti_heap.specs.Shelves.{within, Ready, CanLower, Sheds, LetsGo, Opens, KeepsRest, Known, Gains};
ghost use Rattle.hilti_heap.specs.Shelves.{Overflows, SameBut};
ghost use Rattle.hilti_heap.specs.declared.cells.Cell as spec;

use crate::cells::{Cell, place_of};
use crate::object::Object;
use hilti_base::NoMemory;
use hilti_record::Record;
use hilti_values::{Reference, Value, Values};

/// The objects of a heap by place, the places that are free, and the objects that are given back but still hold others.
/// There is room for each object to be given back.
#[derive(Debug, Drop)]
pub(crate) struct Shelf {
    pub(crate) cells: Vec<Option<Cell>>,
    pub(crate) free: Vec<usize>,
    pub(crate) dying: Vec<Object>,
    pub(crate) kept: u64,
}

/// The count of the object at a place.
fn count_of(cells: &[Option<Cell>], place: usize) -> u64
    ensures { (cell : spec.Cell) → IsCell cells.now place cell → result ≡ cell.count }
{
    match cells.get(place) {
        Some(Some(cell)) => cell.count,
        _ => 0,
    }
}

/// The object at a place has one holder less.
fn lower_at(cells: &mut Vec<Option<Cell>>, place: usize)
    requires { (cell : spec.Cell) × IsCell cells.old.items place cell × (0 < cell.count) }
    ensures { (cell : spec.Cell) → IsCell cells.old.items place cell →
        cells.new.items ≡ slice_set cells.old.items place (Some (record cell { count = cell.count - 1 })) }
{
    if let Some(cell) = &mut cells[place] {
        cell.count -= 1;
    }
}

/// Takes the object at a place.
fn take_at(cells: &mut Vec<Option<Cell>>, place: usize) -> Option<Cell>
    requires { place < length cells.old.items }
    ensures value { slice_get cells.old.items place ≡ Some result }
    ensures rest { cells.new.items ≡ slice_set cells.old.items place None }
{
    cells[place].take()
}

/// Is a place there, and free?
fn is_free(cells: &[Option<Cell>], place: usize) -> bool
    ensures { IsTrue result ↔ (slice_get cells.now place ≡ Some None) }
{
    matches!(cells.get(place), Some(None))
}

/// The object at a place has one holder more.
fn raise_at(cells: &mut Vec<Option<Cell>>, place: usize)
    requires { (cell : spec.Cell) × IsCell cells.old.items place cell × (cell.count + 1 < 2 ^ 64) }
    ensures { (cell : spec.Cell) → IsCell cells.old.items place cell →
        cells.new.items ≡ slice_set cells.old.items place (Some (record cell { count = cell.count + 1 })) }
{
    if let Some(cell) = &mut cells[place] {
        cell.count += 1;
    }
}

impl Shelf {
    /// An object has one holder less. If it was the last, the object is to be given back.
    pub(crate) fn lower(&mut self, at: &Reference)
        requires { Ready self.old (λ s. is s at.now) }
        ensures { Sheds self.old self.new (λ s. is s at.now) }
    {
        match place_of(self.cells.as_slice(), at) {
            Some(place) => self.lower_place(place),
            None => unreachable!(),
        }
    }

    fn lower_place(&mut self, place: usize)
        requires { CanLower self.old place }
        ensures { (s : ℕ) → Stands s self.old.cells.items place →
            Sheds self.old self.new (λ q. is q s) }
    {
        if count_of(self.cells.as_slice(), place) == 1 {
            self.give_back(place);
        } else {
            lower_at(&mut self.cells, place);
        }
    }

    /// The object at a place is to be given back.
    fn give_back(&mut self, place: usize)
        requires { CanLower self.old place }
        ensures { (cell : spec.Cell) → IsCell self.old.cells.items place cell → cell.count ≡ 1 →
            Sheds self.old self.new (λ q. is q cell.serial) }
    {
        if let Some(cell) = take_at(&mut self.cells, place) {
            self.dying.push_reserved(cell.object);
            self.kept -= 1;
            // A place that can't be noted is never used again.
            let _ = self.free.push(place);
        }
    }

    /// The objects that a value holds have one holder less each.
    #[cycle(lower)]
    pub(crate) fn lower_value(&mut self, value: &Value)
        requires { Ready self.old (λ s. held s value.now) }
        ensures { Sheds self.old self.new (λ s. held s value.now) }
    {
        match value {
            Value::Ref(object) => self.lower(object),
            Value::Iter(cursor) => self.lower(&cursor.get().object),
            Value::Tuple(parts) => self.lower_values(parts),
            _ => {}
        }
    }

    /// The same for values in order.
    #[cycle(lower)]
    pub(crate) fn lower_values(&mut self, values: &Values)
        requires { Ready self.old (λ s. all_held s values.now) }
        ensures { Sheds self.old self.new (λ s. all_held s values.now) }
    {
        for value in values.as_slice() {
            self.lower_value(value);
        }
    }

    fn lower_field(&mut self, field: Option<&Value>)
        requires { Ready self.old (λ s. part (held s) (option_copied field)) }
        ensures { Sheds self.old self.new (λ s. part (held s) (option_copied field.entry)) }
    {
        if let Some(value) = field {
            self.lower_value(value);
        }
    }

    fn lower_fields(&mut self, fields: &Record<Value>)
        requires { Ready self.old (λ s. fields_held s fields.now) }
        ensures { Sheds self.old self.new (λ s. fields_held s fields.now) }
    {
        for at in 0..fields.len() {
            self.lower_field(fields.get(at));
        }
    }

    fn lower_object(&mut self, object: &Object)
        requires { Ready self.old (λ s. object_held s object.now) }
        ensures { Sheds self.old self.new (λ s. object_held s object.now) }
    {
        match object {
            Object::Struct(fields) => self.lower_fields(fields),
            Object::Bound { values, .. } => self.lower_values(values),
        }
    }

    /// Each object that is given back releases what it held, one after another.
    pub(crate) fn drain(&mut self)
        requires { Ready self.old (λ s. within s self.old) }
        ensures dying { self.new.dying.items ≡ [] }
        ensures lets_go { LetsGo self.old self.new }
    {
        'each: while let Some(object) = self.dying.pop() {
            self.lower_object(&object);
        }
    }

    /// A free place, with room to give its object back. Without memory no object moves.
    pub(crate) fn place_for(&mut self) -> Result<usize, NoMemory>
        requires { self.old.kept ≡ kept_in self.old.cells.items }
        ensures ok { IfOk result (λ place. Opens self.old self.new place) }
        ensures err { OnErr result (self.new.cells.items ≡ self.old.cells.items) }
        ensures rest { KeepsRest self.old self.new }
    {
        self.dying.reserve(self.cells.len() + 1)?;
        if let Some(place) = self.free.pop() {
            if is_free(self.cells.as_slice(), place) {
                return Ok(place);
            }
        }
        let place = self.cells.len();
        self.free.reserve(place + 1)?;
        self.cells.push(None)?;
        Ok(place)
    }

    /// A new object without a holder, at a free place.
    pub(crate) fn put(&mut self, place: usize, serial: u64, object: Object)
        requires free { slice_get self.old.cells.items place ≡ Some None }
        requires kept { self.old.kept < 2 ^ 63 }
        ensures cells { self.new.cells.items ≡
            slice_set self.old.cells.items place (Some (new_cell serial object)) }
        ensures kept { self.new.kept ≡ self.old.kept + 1 }
        ensures dying { self.new.dying ≡ self.old.dying }
    {
        self.cells[place] = Some(Cell {
            serial,
            count: 0,
            object,
        });
        self.kept += 1;
    }

    /// An object has one holder more. It is refused only where no number counts them, and nothing changes then.
    pub(crate) fn raise(&mut self, at: &Reference) -> Result<(), NoMemory>
        requires { 1 ≤ times_at at.now self.old.cells.items }
        ensures ok { OnOk result (Gains self.old self.new (λ s. is s at.now)) }
        ensures err { OnErr result (self.new.cells ≡ self.old.cells) }
        ensures full { OnErr result (Overflows self.old (λ s. is s at.now)) }
        ensures rest { (self.new.dying ≡ self.old.dying) × (self.new.kept ≡ self.old.kept) }
    {
        match place_of(self.cells.as_slice(), at) {
            Some(place) => {
                if count_of(self.cells.as_slice(), place) == u64::MAX {
                    return Err(NoMemory);
                }
                raise_at(&mut self.cells, place);
                Ok(())
            }
            None => unreachable!(),
        }
    }

    /// The objects that a value holds have one holder more each.
    #[cycle(raise)]
    pub(crate) fn raise_value(&mut self, value: &Value) -> Result<(), NoMemory>
        requires { Known self.old (λ s. held s value.now) }
        ensures ok { OnOk result (Gains self.old self.new (λ s. held s value.now)) }
        ensures full { OnErr result (Overflows self.old (λ s. held s value.now)) }
        ensures rest { (self.new.dying ≡ self.old.dying) × (self.new.kept ≡ self.old.kept) }
        ensures counts { SameBut self.old self.new }
    {
        match value {
            Value::Ref(object) => Ok(self.raise(object)?),
            Value::Iter(cursor) => Ok(self.raise(&cursor.get().object)?),
            Value::Tuple(parts) => Ok(self.raise_values(parts)?),
            _ => Ok(()),
        }
    }

    /// The same for values in order.
    #[cycle(raise)]
    pub(crate) fn raise_values(&mut self, values: &Values) -> Result<(), NoMemory>
        requires { Known self.old (λ s. all_held s values.now) }
        ensures ok { OnOk result (Gains self.old self.new (λ s. all_held s values.now)) }
        ensures full { OnErr result (Overflows self.old (λ s. all_held s values.now)) }
        ensures rest { (self.new.dying ≡ self.old.dying) × (self.new.kept ≡ self.old.kept) }
        ensures counts { SameBut self.old self.new }
    {
        for value in values.as_slice() {
            self.raise_value(value)?;
        }
        Ok(())
    }
}
