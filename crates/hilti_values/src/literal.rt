//! The values that literals write.
ghost use Rattle.std.specs.Prelude.{◌≡◌, IfOk};
ghost use Rattle.hilti_values.specs.Literals.{value_of};

use crate::shared_bytes::SharedBytes;
use crate::value::Value;
use hilti_base::NoMemory;
use hilti_tree::Tree;
use std::alloc::Global;

/// The value of a literal's tree; `None` exactly where no literal has this tree.
pub fn literal_value(alloc: Global, tree: &Tree) -> Result<Option<Value>, NoMemory>
    ensures { IfOk result (λ value. value ≡ value_of tree.now) }
{
    Ok(match tree {
        Tree::Bool(value) => Some(Value::Bool(*value)),
        Tree::Int(n) => Some(Value::Int(*n)),
        Tree::Text(bytes) => Some(Value::Text(SharedBytes::of(alloc, bytes.bytes())?)),
        Tree::Bytes(bytes) => Some(Value::Bytes(SharedBytes::of(alloc, bytes.bytes())?)),
        Tree::Addr(address) => Some(Value::Addr(*address)),
        Tree::Net(address, length) => Some(Value::Net {
            length: *length,
            address: *address,
        }),
        Tree::Port(n, is_udp) => Some(Value::Port(*n, *is_udp)),
        Tree::Time(nanos) => Some(Value::Time(*nanos)),
        Tree::Span(nanos) => Some(Value::Span(*nanos)),
        Tree::Pick(n) => Some(Value::Pick(*n)),
        Tree::Null => Some(Value::Null),
        Tree::Unset
        | Tree::Tuple(_)
        | Tree::List(_)
        | Tree::Vector(_)
        | Tree::Set(_)
        | Tree::Map(_, _)
        | Tree::Fields(_)
        | Tree::Rules { .. } => None,
    })
}
