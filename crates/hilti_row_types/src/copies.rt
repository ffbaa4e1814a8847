//! Copies of types.
ghost use Rattle.std.specs.Prelude.{◌≡◌, IfOk};

use hilti_base::NoMemory;
use hilti_types::{Inner, ValueType, ValueTypes};
use sqlite_items::Boxed;
use std::alloc::Global;

/// A copy of a type.
#[cycle(copy)]
pub fn copy_type(alloc: Global, t: &ValueType) -> Result<ValueType, NoMemory>
    ensures { IfOk result (λ copied. copied ≡ t.now) }
{
    Ok(match t {
        ValueType::Bool => ValueType::Bool,
        ValueType::Int { bits } => ValueType::Int { bits: *bits },
        ValueType::Text => ValueType::Text,
        ValueType::Bytes => ValueType::Bytes,
        ValueType::Addr => ValueType::Addr,
        ValueType::Net => ValueType::Net,
        ValueType::Port => ValueType::Port,
        ValueType::Time => ValueType::Time,
        ValueType::Span => ValueType::Span,
        ValueType::Callable => ValueType::Callable,
        ValueType::Enum { n } => ValueType::Enum { n: *n },
        ValueType::Tuple { parts } => ValueType::Tuple {
            parts: copy_parts(alloc, parts)?,
        },
        ValueType::Iter { over } => ValueType::Iter {
            over: copy_object(alloc, over)?,
        },
        ValueType::Ref { to } => ValueType::Ref {
            to: copy_object(alloc, to)?,
        },
    })
}

/// Copies of types in their order.
#[cycle(copy)]
pub fn copy_parts(alloc: Global, parts: &ValueTypes) -> Result<ValueTypes, NoMemory>
    ensures { IfOk result (λ copied. copied ≡ parts.now) }
{
    let mut copied = ValueTypes::new(alloc);
    for part in parts.as_slice() {
        copied.push(copy_type(alloc, part)?)?;
    }
    Ok(copied)
}

/// A copy of the type of an object.
#[cycle(copy)]
pub fn copy_object(alloc: Global, object: &Inner) -> Result<Inner, NoMemory>
    ensures { IfOk result (λ copied. copied ≡ object.now) }
{
    Ok(match object {
        Inner::Timer => Inner::Timer,
        Inner::Manager => Inner::Manager,
        Inner::Struct { n } => Inner::Struct { n: *n },
        Inner::List { item } => Inner::List {
            item: Boxed::new(alloc, copy_type(alloc, item.get())?)?,
        },
        Inner::Vector { item } => Inner::Vector {
            item: Boxed::new(alloc, copy_type(alloc, item.get())?)?,
        },
        Inner::Set { item } => Inner::Set {
            item: Boxed::new(alloc, copy_type(alloc, item.get())?)?,
        },
        Inner::Map { key, value } => Inner::Map {
            key: Boxed::new(alloc, copy_type(alloc, key.get())?)?,
            value: Boxed::new(alloc, copy_type(alloc, value.get())?)?,
        },
        Inner::Classifier { rule, value } => Inner::Classifier {
            rule: Boxed::new(alloc, copy_type(alloc, rule.get())?)?,
            value: Boxed::new(alloc, copy_type(alloc, value.get())?)?,
        },
    })
}
