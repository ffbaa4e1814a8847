//! Equal values, which share the bytes of their sources.
ghost use Rattle.std.specs.Prelude.{◌≡◌, IfOk};

use crate::value::{Cursor, Value, Values};
use hilti_base::NoMemory;
use sqlite_items::Boxed;
use std::alloc::Global;

/// A value equal to its source. Text and bytes are shared, and the parts of a tuple one by one. A tuple and an iterator
/// take memory of their own.
#[cycle(share)]
pub fn share(alloc: Global, value: &Value) -> Result<Value, NoMemory>
    ensures { IfOk result (λ shared. shared ≡ value.now) }
{
    Ok(match value {
        Value::Bool(truth) => Value::Bool(*truth),
        Value::Int(n) => Value::Int(*n),
        Value::Text(bytes) => Value::Text(bytes.share()?),
        Value::Bytes(bytes) => Value::Bytes(bytes.share()?),
        Value::Addr(address) => Value::Addr(*address),
        Value::Net { length, address } => Value::Net {
            length: *length,
            address: *address,
        },
        Value::Port(n, is_udp) => Value::Port(*n, *is_udp),
        Value::Time(nanos) => Value::Time(*nanos),
        Value::Span(nanos) => Value::Span(*nanos),
        Value::Pick(n) => Value::Pick(*n),
        Value::Tuple(parts) => Value::Tuple(share_all(alloc, parts)?),
        Value::Null => Value::Null,
        Value::Ref(object) => Value::Ref(object.share()),
        Value::Iter(cursor) => Value::Iter(share_cursor(alloc, cursor.get())?),
    })
}

/// Values equal to their sources, in their order.
#[cycle(share)]
pub fn share_all(alloc: Global, values: &Values) -> Result<Values, NoMemory>
    ensures { IfOk result (λ shared. shared ≡ values.now) }
{
    let mut shared = Values::new(alloc);
    for value in values.as_slice() {
        shared.push(share(alloc, value)?)?;
    }
    Ok(shared)
}

/// An iterator at the same place of the same container.
fn share_cursor(alloc: Global, cursor: &Cursor) -> Result<Boxed<Cursor>, NoMemory>
    ensures { IfOk result (λ shared. shared ≡ cursor.now) }
{
    let same = Cursor {
        object: cursor.object.share(),
        at: cursor.at,
        version: cursor.version,
    };
    Ok(Boxed::new(alloc, same)?)
}
