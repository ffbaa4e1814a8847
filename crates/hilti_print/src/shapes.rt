//! What the type of a value says of its parts. Where it says nothing, there is no type, and there are no names.
ghost use Rattle.std.specs.Prelude.{◌≡◌, slice_get};
ghost use Rattle.std.specs.Option.{option_copied, option_map};
ghost use Rattle.hilti_print.specs.Trees as spec;

use hilti_base::Blob;
use hilti_types::{Declared, Inner, Member, TypeTable, ValueType};

/// The object that a type refers to.
fn object_of(shape: Option<&ValueType>) -> Option<&Inner>
    ensures { option_copied result ≡ spec.object_of (option_copied shape.entry) }
{
    match shape {
        Some(ValueType::Ref { to }) => Some(to),
        _ => None,
    }
}

/// The type of the items of a list or a vector, or of the keys of a set.
pub fn item_shape(shape: Option<&ValueType>) -> Option<&ValueType>
    ensures { option_copied result ≡ spec.item_shape (option_copied shape.entry) }
{
    match object_of(shape) {
        Some(Inner::List { item } | Inner::Vector { item } | Inner::Set { item }) => {
            Some(item.get())
        }
        _ => None,
    }
}

/// The type of the keys of a map.
pub fn key_shape(shape: Option<&ValueType>) -> Option<&ValueType>
    ensures { option_copied result ≡ spec.key_shape (option_copied shape.entry) }
{
    match object_of(shape) {
        Some(Inner::Map { key, value: _ }) => Some(key.get()),
        _ => None,
    }
}

/// The type of the values of a map.
pub fn value_shape(shape: Option<&ValueType>) -> Option<&ValueType>
    ensures { option_copied result ≡ spec.value_shape (option_copied shape.entry) }
{
    match object_of(shape) {
        Some(Inner::Map { key: _, value }) => Some(value.get()),
        _ => None,
    }
}

/// The types of the parts of a tuple.
pub fn part_shapes(shape: Option<&ValueType>) -> &[ValueType]
    ensures { result.now ≡ spec.part_shapes (option_copied shape.entry) }
{
    match shape {
        Some(ValueType::Tuple { parts }) => parts.as_slice(),
        _ => &[],
    }
}

/// The words of an enum.
pub fn words_of<'a>(shape: Option<&ValueType>, types: &'a TypeTable) -> &'a [Blob]
    ensures { result.now ≡ spec.words_of types.now (option_copied shape.entry) }
{
    let Some(ValueType::Enum { n }) = shape else {
        return &[];
    };
    match types.get(*n as usize) {
        Some(Declared::Enum { name: _, words }) => words.as_slice(),
        _ => &[],
    }
}

/// The fields of a struct.
pub fn members_of<'a>(shape: Option<&ValueType>, types: &'a TypeTable) -> &'a [Member]
    ensures { result.now ≡ spec.members_of types.now (option_copied shape.entry) }
{
    let Some(Inner::Struct { n }) = object_of(shape) else {
        return &[];
    };
    match types.get(*n as usize) {
        Some(Declared::Struct { name: _, fields }) => fields.as_slice(),
        _ => &[],
    }
}

/// What a list has at a place, counted from 0; `None` exactly past its end.
pub fn at_place<T>(items: &[T], at: usize) -> Option<&T>
    ensures { option_copied result ≡ slice_get items.now at }
{
    items.get(at)
}

/// The name of the field at a place.
pub fn name_at(members: &[Member], at: usize) -> Option<&Blob>
    ensures { option_copied result
        ≡ option_map (λ member. member.name) (slice_get members.now at) }
{
    match at_place(members, at) {
        Some(member) => Some(&member.name),
        None => None,
    }
}

/// The type of the field at a place.
pub fn kind_at(members: &[Member], at: usize) -> Option<&ValueType>
    ensures { option_copied result
        ≡ option_map (λ member. member.kind) (slice_get members.now at) }
{
    match at_place(members, at) {
        Some(member) => Some(&member.kind),
        None => None,
    }
}
