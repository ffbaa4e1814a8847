//! What variables hold at first.
ghost use Rattle.std.specs.Prelude.{◌≡◌, IfOk, map};
ghost use Rattle.hilti_values.specs.First.{first_of};

use crate::shared_bytes::SharedBytes;
use crate::value::{Value, Values};
use hilti_addr::v4;
use hilti_base::NoMemory;
use hilti_types::{ValueType, ValueTypes};
use std::alloc::Global;

/// What a variable of a type holds at first. Only tuples take memory.
#[cycle(first)]
pub fn first_value(alloc: Global, kind: &ValueType) -> Result<Value, NoMemory>
    ensures { IfOk result (λ value. value ≡ first_of kind.now) }
{
    Ok(match kind {
        ValueType::Bool => Value::Bool(false),
        ValueType::Int { bits: _ } => Value::Int(0),
        ValueType::Text => Value::Text(SharedBytes::empty()),
        ValueType::Bytes => Value::Bytes(SharedBytes::empty()),
        ValueType::Addr => Value::Addr(v4(0)),
        ValueType::Net => Value::Net {
            length: 96,
            address: v4(0),
        },
        ValueType::Port => Value::Port(0, false),
        ValueType::Time => Value::Time(0),
        ValueType::Span => Value::Span(0),
        ValueType::Enum { n: _ } => Value::Pick(0),
        ValueType::Tuple { parts } => Value::Tuple(first_values(alloc, parts)?),
        ValueType::Callable | ValueType::Iter { over: _ } | ValueType::Ref { to: _ } => Value::Null,
    })
}

/// What variables of some types hold at first, in their order.
#[cycle(first)]
pub fn first_values(alloc: Global, kinds: &ValueTypes) -> Result<Values, NoMemory>
    ensures { IfOk result (λ values. values ≡ map first_of kinds.now) }
{
    let mut values = Values::new(alloc);
    for kind in kinds.as_slice() {
        values.push(first_value(alloc, kind)?)?;
    }
    Ok(values)
}
