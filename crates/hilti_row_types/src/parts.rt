//! The parts of types that rows name. Nothing here takes memory.
ghost use Rattle.std.specs.Prelude.{◌≡◌, slice_get};
ghost use Rattle.std.specs.Option.{option_copied};
ghost use Rattle.hilti_table.specs.declared.row.Part.TheVariants as parts;
ghost use Rattle.hilti_typing.specs.Types as spec;

use hilti_table::Part;
use hilti_types::{Declared, Inner, Member, OverlayFields, TypeTable, ValueType};

/// The object that a type is a reference to.
pub fn object_of(t: &ValueType) -> Option<&Inner>
    ensures { option_copied result ≡ spec.object_of t.now }
{
    match t {
        ValueType::Ref { to } => Some(to),
        _ => None,
    }
}

/// The container that an iterator goes over.
pub fn iterated(t: &ValueType) -> Option<&Inner>
    ensures { option_copied result ≡ spec.iterated t.now }
{
    match t {
        ValueType::Iter { over } => Some(over),
        _ => None,
    }
}

/// The element or the key of a container, and the value of a map or a classifier.
pub fn part_of(part: Part, object: &Inner) -> Option<&ValueType>
    ensures { option_copied result ≡ spec.part_of part object.now }
{
    match part {
        Part::First => first_part(object),
        Part::Second => second_part(object),
    }
}

/// The element or the key of a container.
fn first_part(object: &Inner) -> Option<&ValueType>
    ensures { option_copied result ≡ spec.part_of parts.First object.now }
{
    match object {
        Inner::List { item } | Inner::Vector { item } | Inner::Set { item } => Some(item.get()),
        Inner::Map { key, value: _ } => Some(key.get()),
        _ => None,
    }
}

/// The value of a map or a classifier.
fn second_part(object: &Inner) -> Option<&ValueType>
    ensures { option_copied result ≡ spec.part_of parts.Second object.now }
{
    match object {
        Inner::Map { key: _, value } => Some(value.get()),
        Inner::Classifier { rule: _, value } => Some(value.get()),
        _ => None,
    }
}

/// The parts of a tuple, and none of another type.
pub fn parts_of(t: &ValueType) -> &[ValueType]
    ensures { result.now ≡ spec.parts_of t.now }
{
    match t {
        ValueType::Tuple { parts } => parts.as_slice(),
        _ => &[],
    }
}

/// The parts of a classifier's rules.
pub fn rule_of(object: &Inner) -> Option<&[ValueType]>
    ensures { option_copied result ≡ spec.rule_of object.now }
{
    match object {
        Inner::Classifier { rule, value: _ } => Some(parts_of(rule.get())),
        _ => None,
    }
}

/// The fields of an object that is a struct.
pub fn fields_of<'a>(types: &'a TypeTable, object: &Inner) -> &'a [Member]
    ensures { result.now ≡ spec.fields_of types.now object.now }
{
    match object {
        Inner::Struct { n } => struct_fields(types.get(*n as usize)),
        _ => &[],
    }
}

fn struct_fields(declared: Option<&Declared>) -> &[Member]
    ensures { result.now ≡ spec.struct_fields (option_copied declared.entry) }
{
    match declared {
        Some(Declared::Struct { name: _, fields }) => fields.as_slice(),
        _ => &[],
    }
}

/// The fields of the overlay at a place of the table.
pub fn overlay_fields(types: &TypeTable, n: u32) -> Option<&OverlayFields>
    ensures { option_copied result ≡ spec.overlay_fields (slice_get types.now n) }
{
    match types.get(n as usize) {
        Some(Declared::Overlay { name: _, fields }) => Some(fields),
        _ => None,
    }
}
