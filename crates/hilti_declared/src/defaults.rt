//! The values that variables have by default.
ghost use Rattle.std.specs.Prelude.{◌≡◌, IfOk, map};
ghost use Rattle.hilti_typing.specs.Defaults.{default_of};

use hilti_addr::v4;
use hilti_base::{Blob, NoMemory};
use hilti_tree::{Forest, Tree};
use hilti_types::{ValueType, ValueTypes};
use std::alloc::Global;

/// The bits of the net of all IPv4 addresses, from the 128-bit top.
const ALL_IPV4: u8 = 96;

/// The value that a variable of a type has by default. Only tuples take memory.
#[cycle(default)]
pub fn default_value(alloc: Global, kind: &ValueType) -> Result<Tree, NoMemory>
    ensures { IfOk result (λ tree. tree ≡ default_of kind.now) }
{
    Ok(match kind {
        ValueType::Bool => Tree::Bool(false),
        ValueType::Int { bits: _ } => Tree::Int(0),
        ValueType::Text => Tree::Text(Blob::new(alloc)),
        ValueType::Bytes => Tree::Bytes(Blob::new(alloc)),
        ValueType::Addr => Tree::Addr(v4(0)),
        ValueType::Net => Tree::Net(v4(0), ALL_IPV4),
        ValueType::Port => Tree::Port(0, false),
        ValueType::Time => Tree::Time(0),
        ValueType::Span => Tree::Span(0),
        ValueType::Enum { n: _ } => Tree::Pick(0),
        ValueType::Tuple { parts } => Tree::Tuple(default_values(alloc, parts)?),
        ValueType::Callable | ValueType::Iter { over: _ } | ValueType::Ref { to: _ } => Tree::Null,
    })
}

/// The values that variables of some types have by default, in their order.
#[cycle(default)]
pub fn default_values(alloc: Global, kinds: &ValueTypes) -> Result<Forest, NoMemory>
    ensures { IfOk result (λ trees. trees ≡ map default_of kinds.now) }
{
    let mut trees = Forest::new(alloc);
    for kind in kinds.as_slice() {
        trees.push(default_value(alloc, kind)?)?;
    }
    Ok(trees)
}
