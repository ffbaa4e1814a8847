//! Which types are sendable. Nothing here takes memory.
ghost use Rattle.std.specs.Prelude.{◌≡◌, ◌↔◌, IsTrue, map};
ghost use Rattle.std.specs.List.{list_all};
ghost use Rattle.hilti_types.specs.Sendable.{IsSendable, is_sendable_in, is_object_sendable_in};
ghost use Rattle.hilti_types.specs.Sendable.{sendables, declared_sendable, fields_sendable};

use crate::declared::{Declared, Members};
use crate::table::TypeTable;
use crate::value_type::{Inner, ValueType, ValueTypes};

/// Whether a type is sendable: its values may go to another thread. Sendable are the scalars, the enums of the table,
/// the tuples of sendable parts, and the references to a struct, list, vector, set, map or classifier whose parts are
/// sendable. A struct's parts are its fields; they name types declared before it, and other names are not sendable. It
/// takes time linear in the type.
#[cycle(sendability)]
pub fn is_sendable(types: &TypeTable, t: &ValueType) -> bool
    ensures { IsTrue result ↔ IsSendable types.now t.now }
{
    match t {
        ValueType::Bool
        | ValueType::Int { bits: _ }
        | ValueType::Text
        | ValueType::Bytes
        | ValueType::Addr
        | ValueType::Net
        | ValueType::Port
        | ValueType::Time
        | ValueType::Span => true,
        ValueType::Enum { n } => types.is_sendable_at(*n as usize),
        ValueType::Tuple { parts } => parts_are_sendable(types, parts),
        ValueType::Ref { to } => object_is_sendable(types, to),
        ValueType::Callable | ValueType::Iter { over: _ } => false,
    }
}

/// Whether all parts of a tuple are sendable.
#[cycle(sendability)]
fn parts_are_sendable(types: &TypeTable, parts: &ValueTypes) -> bool
    ensures { result ≡ list_all (λ yes. yes) (map (is_sendable_in types.now) parts.now) }
{
    for part in parts.as_slice() {
        if !is_sendable(types, part) {
            return false;
        }
    }
    true
}

/// Whether the references to an object are sendable.
#[cycle(sendability)]
fn object_is_sendable(types: &TypeTable, object: &Inner) -> bool
    ensures { result ≡ is_object_sendable_in types.now object.now }
{
    match object {
        Inner::Timer | Inner::Manager => false,
        Inner::Struct { n } => types.is_sendable_at(*n as usize),
        Inner::List { item } | Inner::Vector { item } | Inner::Set { item } => is_sendable(
            types,
            item.get(),
        ),
        Inner::Map { key, value } => {
            is_sendable(types, key.get()) && is_sendable(types, value.get())
        }
        Inner::Classifier { rule, value } => {
            is_sendable(types, rule.get()) && is_sendable(types, value.get())
        }
    }
}

/// Whether a type that is declared behind those of a table is sendable.
pub fn declared_is_sendable(types: &TypeTable, declared: &Declared) -> bool
    ensures { result ≡ declared_sendable (sendables types.now) declared.now }
{
    match declared {
        Declared::Struct { name: _, fields } => fields_are_sendable(types, fields),
        Declared::Enum { name: _, words: _ } => true,
        Declared::Overlay { name: _, fields: _ } => false,
    }
}

/// Whether the types of all fields of a struct are sendable.
fn fields_are_sendable(types: &TypeTable, fields: &Members) -> bool
    ensures { result ≡ fields_sendable (sendables types.now) fields.now }
{
    for field in fields.as_slice() {
        if !is_sendable(types, &field.kind) {
            return false;
        }
    }
    true
}
