//! Whether two types are one type. Nothing here takes memory.
ghost use Rattle.std.specs.Prelude.{◌≡◌, ◌↔◌, IsTrue};

use crate::value_type::{Inner, ValueType, ValueTypes};

/// Whether two types are the same.
#[cycle(same)]
pub fn same(a: &ValueType, b: &ValueType) -> bool
    ensures { IsTrue result ↔ (a.now ≡ b.now) }
{
    match a {
        ValueType::Bool => matches!(b, ValueType::Bool),
        ValueType::Int { bits } => match b {
            ValueType::Int { bits: others } => *bits == *others,
            _ => false,
        },
        ValueType::Text => matches!(b, ValueType::Text),
        ValueType::Bytes => matches!(b, ValueType::Bytes),
        ValueType::Addr => matches!(b, ValueType::Addr),
        ValueType::Net => matches!(b, ValueType::Net),
        ValueType::Port => matches!(b, ValueType::Port),
        ValueType::Time => matches!(b, ValueType::Time),
        ValueType::Span => matches!(b, ValueType::Span),
        ValueType::Callable => matches!(b, ValueType::Callable),
        ValueType::Enum { n } => match b {
            ValueType::Enum { n: other } => *n == *other,
            _ => false,
        },
        ValueType::Tuple { parts } => match b {
            ValueType::Tuple { parts: others } => same_parts(parts, others),
            _ => false,
        },
        ValueType::Iter { over } => match b {
            ValueType::Iter { over: other } => same_inner(over, other),
            _ => false,
        },
        ValueType::Ref { to } => match b {
            ValueType::Ref { to: other } => same_inner(to, other),
            _ => false,
        },
    }
}

/// Whether two tuples have the same parts.
#[cycle(same)]
fn same_parts(parts: &ValueTypes, others: &ValueTypes) -> bool
    ensures { IsTrue result ↔ (parts.now ≡ others.now) }
{
    let left = parts.as_slice();
    let right = others.as_slice();
    if left.len() != right.len() {
        return false;
    }
    for at in 0..left.len() {
        if !same(&left[at], &right[at]) {
            return false;
        }
    }
    true
}

/// Whether the types of two objects are the same.
#[cycle(same)]
fn same_inner(a: &Inner, b: &Inner) -> bool
    ensures { IsTrue result ↔ (a.now ≡ b.now) }
{
    match a {
        Inner::Timer => matches!(b, Inner::Timer),
        Inner::Manager => matches!(b, Inner::Manager),
        Inner::Struct { n } => match b {
            Inner::Struct { n: other } => *n == *other,
            _ => false,
        },
        Inner::List { item } => match b {
            Inner::List { item: other } => same(item.get(), other.get()),
            _ => false,
        },
        Inner::Vector { item } => match b {
            Inner::Vector { item: other } => same(item.get(), other.get()),
            _ => false,
        },
        Inner::Set { item } => match b {
            Inner::Set { item: other } => same(item.get(), other.get()),
            _ => false,
        },
        Inner::Map { key, value } => match b {
            Inner::Map {
                key: other,
                value: others,
            } => same(key.get(), other.get()) && same(value.get(), others.get()),
            _ => false,
        },
        Inner::Classifier { rule, value } => match b {
            Inner::Classifier {
                rule: other,
                value: others,
            } => same(rule.get(), other.get()) && same(value.get(), others.get()),
            _ => false,
        },
    }
}
