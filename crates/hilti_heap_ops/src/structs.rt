ghost use Rattle.std.specs.Prelude.{◌≡◌, ℕ, ◌<◌, IfOk, OnOk, Some, None};
ghost use Rattle.hilti_values.specs.declared.value.Value.TheVariants as values;
ghost use Rattle.hilti_heap.specs.Cells.{object_at};
ghost use Rattle.hilti_heap.specs.Held.{part, held};
ghost use Rattle.hilti_heap.specs.Kept.{Covers, Changes, Releases};
ghost use Rattle.hilti_heap.specs.Stands.{Goes, Meets};
ghost use Rattle.hilti_heap.specs.declared.object.Object as object;
ghost use Rattle.hilti_heap_ops.specs.Meaning as meaning;
ghost use Rattle.hilti_heap_ops.specs.Meaning.{with_field, field_of};
ghost use Rattle.hilti_heap_ops.specs.Shapes.{HasField, HasFieldAt, HasFieldIn, AreHeld};

use crate::creation::create;
use hilti_base::{NoMemory, Raise};
use hilti_heap::{Heap, Object, OpFault};
use hilti_record::Record;
use hilti_values::{Reference, Value, share};
use std::alloc::Global;

/// `new` of a struct of so many fields, all unset.
pub fn new_struct(alloc: Global, heap: &mut Heap, fields: usize) -> Result<Option<Value>, OpFault>
    ensures { Meets (meaning.struct_new fields) result heap.old heap.new }
{
    let unset = Record::new(alloc, fields)?;
    let value = create(heap, Object::Struct(unset))?;
    Ok(Some(value))
}

/// `struct.get`: the value of a field, which the result holds besides. NullReference comes exactly where the struct is
/// Null, and UnsetField exactly where the field is unset.
pub fn struct_get(
    alloc: Global,
    heap: &mut Heap,
    object: &Value,
    at: usize,
) -> Result<Option<Value>, OpFault>
    requires kind { HasField heap.old at object.now }
    requires held { AreHeld heap.old object.now }
    ensures { Meets (meaning.struct_get object.now at) result heap.old heap.new }
{
    match object {
        Value::Ref(to) => match read_field(alloc, heap, to, at)? {
            Some(value) => {
                heap.hold_value(&value)?;
                Ok(Some(value))
            }
            None => Err(OpFault::Raise(Raise::UnsetField)),
        },
        _ => Err(OpFault::Raise(Raise::NullReference)),
    }
}

/// The value of a field, which nothing counts yet; `None` where the field is unset.
fn read_field(
    alloc: Global,
    heap: &Heap,
    to: &Reference,
    at: usize,
) -> Result<Option<Value>, NoMemory>
    requires { HasFieldAt heap.now at to.now }
    ensures { IfOk result (λ value. (o : object.Object) → object_at to.now heap.now.cells ≡ Some o →
        field_of at o ≡ value) }
{
    match heap.look(to) {
        Some(Object::Struct(fields)) => match fields.get(at) {
            Some(value) => Ok(Some(share(alloc, value)?)),
            None => Ok(None),
        },
        _ => unreachable!(),
    }
}

/// `struct.is_set`: whether a field is set. NullReference comes exactly where the struct is Null.
pub fn struct_is_set(heap: &Heap, object: &Value, at: usize) -> Result<Option<Value>, OpFault>
    requires { HasField heap.now at object.now }
    ensures { Meets (meaning.struct_is_set object.now at) result heap.now heap.now }
{
    match object {
        Value::Ref(to) => Ok(Some(Value::Bool(has_value(heap, to, at)))),
        _ => Err(OpFault::Raise(Raise::NullReference)),
    }
}

fn has_value(heap: &Heap, to: &Reference, at: usize) -> bool
    requires { HasFieldAt heap.now at to.now }
    ensures { (o : object.Object) → object_at to.now heap.now.cells ≡ Some o →
        meaning.field_is_set at o ≡ Some (values.Bool result) }
{
    match heap.look(to) {
        Some(Object::Struct(fields)) => fields.get(at).is_some(),
        _ => unreachable!(),
    }
}

/// `struct.set`: a field has another value. The struct holds what the value holds, and no longer what the old one held.
/// NullReference comes exactly where the struct is Null.
pub fn struct_set(
    alloc: Global,
    heap: &mut Heap,
    object: &Value,
    at: usize,
    item: &Value,
) -> Result<Option<Value>, OpFault>
    requires kind { HasField heap.old at object.now }
    requires held { AreHeld heap.old item.now }
    ensures { Meets (meaning.struct_set object.now at item.now) result heap.old heap.new }
{
    match object {
        Value::Ref(to) => {
            set(alloc, heap, to, at, item)?;
            Ok(None)
        }
        _ => Err(OpFault::Raise(Raise::NullReference)),
    }
}

fn set(
    alloc: Global,
    heap: &mut Heap,
    to: &Reference,
    at: usize,
    item: &Value,
) -> Result<(), NoMemory>
    requires kind { HasFieldAt heap.old at to.now }
    requires held { AreHeld heap.old item.now }
    ensures { OnOk result
        (Goes (meaning.struct_set (values.Ref to.now) at item.now) None heap.old heap.new) }
{
    let shared = share(alloc, item)?;
    heap.hold_value(&shared)?;
    let before = exchange(heap, to, at, Some(shared));
    release_field(heap, before);
    Ok(())
}

/// `struct.unset`: a field is unset, and the struct no longer holds what its value held. NullReference comes exactly
/// where the struct is Null. It takes no memory.
pub fn struct_unset(heap: &mut Heap, object: &Value, at: usize) -> Result<Option<Value>, OpFault>
    requires kind { HasField heap.old at object.now }
    requires held { AreHeld heap.old object.now }
    ensures { Meets (meaning.struct_unset object.now at) result heap.old heap.new }
{
    match object {
        Value::Ref(to) => {
            unset(heap, to, at);
            Ok(None)
        }
        _ => Err(OpFault::Raise(Raise::NullReference)),
    }
}

fn unset(heap: &mut Heap, to: &Reference, at: usize)
    requires kind { HasFieldAt heap.old at to.now }
    requires held { AreHeld heap.old (values.Ref to.now) }
    ensures { Goes (meaning.struct_unset (values.Ref to.now) at) None heap.old heap.new }
{
    let before = exchange(heap, to, at, None);
    release_field(heap, before);
}

/// Another content of a field, without a look at the counts, for the old one.
fn exchange(heap: &mut Heap, to: &Reference, at: usize, field: Option<Value>) -> Option<Value>
    requires { HasFieldAt heap.old at to.now }
    ensures before { (o : object.Object) → object_at to.now heap.old.cells ≡ Some o →
        field_of at o ≡ result }
    ensures after { (o : object.Object) → object_at to.now heap.old.cells ≡ Some o →
        Changes heap.old heap.new to.now o (with_field at field o) }
{
    match heap.change(to) {
        Some(object) => exchange_in(object, at, field),
        None => unreachable!(),
    }
}

/// The same in a struct.
fn exchange_in(object: &mut Object, at: usize, field: Option<Value>) -> Option<Value>
    requires { HasFieldIn at object.old }
    ensures before { field_of at object.old ≡ result }
    ensures after { object.new ≡ with_field at field object.old }
{
    match object {
        Object::Struct(fields) => fields.replace(at, field),
        _ => unreachable!(),
    }
}

fn release_field(heap: &mut Heap, field: Option<Value>)
    requires { Covers heap.old (λ s. part (held s) field) }
    ensures { Releases heap.old heap.new (λ s. part (held s) field) }
{
    if let Some(value) = field {
        heap.release_value(&value);
    }
}
