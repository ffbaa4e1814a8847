//! How deep types nest, told by a `u32`: 4,294,967,295 stands for all that is deeper. Nothing here takes memory.
ghost use Rattle.std.specs.Prelude.{◌≡◌, ◌+◌, ℕ, map};
ghost use Rattle.hilti_types.specs.Depths as spec;
ghost use Rattle.hilti_types.specs.Depths.{as_u32, depth_of, depths, greatest, object_depth_of};

use crate::declared::{Declared, Members};
use crate::table::TypeTable;
use crate::value_type::{Inner, ValueType, ValueTypes};

/// How deep a type nests. A type without parts, an enum and a callable have 1; a tuple, an iterator and an object of
/// parts have 1 more than their deepest part, which of a struct is a field and of an iterator its container; a
/// reference adds nothing, and timers and their managers have 1. A name past the end of the table has 1 too. It takes
/// time linear in the type.
#[cycle(depths)]
pub fn depth(types: &TypeTable, t: &ValueType) -> u32
    ensures { result ≡ as_u32 (depth_of types.now t.now) }
{
    match t {
        ValueType::Bool
        | ValueType::Int { bits: _ }
        | ValueType::Text
        | ValueType::Bytes
        | ValueType::Addr
        | ValueType::Net
        | ValueType::Port
        | ValueType::Time
        | ValueType::Span
        | ValueType::Callable
        | ValueType::Enum { n: _ } => 1,
        ValueType::Tuple { parts } => one_deeper(parts_depth(types, parts)),
        ValueType::Iter { over } => one_deeper(object_depth(types, over)),
        ValueType::Ref { to } => object_depth(types, to),
    }
}

/// The depth of the deepest part of a tuple.
#[cycle(depths)]
fn parts_depth(types: &TypeTable, parts: &ValueTypes) -> u32
    ensures { result ≡ as_u32 (greatest (map (depth_of types.now) parts.now)) }
{
    let mut deepest = 0;
    for part in parts.as_slice() {
        let part_depth = depth(types, part);
        deepest = deepest.max(part_depth);
    }
    deepest
}

/// How deep the type of an object nests.
#[cycle(depths)]
fn object_depth(types: &TypeTable, object: &Inner) -> u32
    ensures { result ≡ as_u32 (object_depth_of types.now object.now) }
{
    match object {
        Inner::Timer | Inner::Manager => 1,
        Inner::Struct { n } => types.depth_at(*n as usize),
        Inner::List { item } | Inner::Vector { item } | Inner::Set { item } => one_deeper(depth(
            types,
            item.get(),
        )),
        Inner::Map { key, value } => {
            let key_depth = depth(types, key.get());
            let value_depth = depth(types, value.get());
            one_deeper(key_depth.max(value_depth))
        }
        Inner::Classifier { rule, value } => {
            let rule_depth = depth(types, rule.get());
            let value_depth = depth(types, value.get());
            one_deeper(rule_depth.max(value_depth))
        }
    }
}

/// How deep a type that is declared behind those of a table nests.
pub fn declared_depth(types: &TypeTable, declared: &Declared) -> u32
    ensures { result ≡ as_u32 (spec.declared_depth (depths types.now) declared.now) }
{
    match declared {
        Declared::Struct { name: _, fields } => one_deeper(fields_depth(types, fields)),
        Declared::Enum { name: _, words: _ } | Declared::Overlay { name: _, fields: _ } => 1,
    }
}

/// The depth of the deepest field of a struct.
fn fields_depth(types: &TypeTable, fields: &Members) -> u32
    ensures { result ≡ as_u32 (spec.fields_depth (depths types.now) fields.now) }
{
    let mut deepest = 0;
    for field in fields.as_slice() {
        let field_depth = depth(types, &field.kind);
        deepest = deepest.max(field_depth);
    }
    deepest
}

/// A depth that is 1 more.
fn one_deeper(depth: u32) -> u32
    ensures { (exact : ℕ) → depth ≡ as_u32 exact → result ≡ as_u32 (1 + exact) }
{
    depth.saturating_add(1)
}
