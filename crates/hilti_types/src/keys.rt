//! Which types are key types. Nothing here takes memory.
ghost use Rattle.std.specs.Prelude.{◌≡◌, ◌↔◌, IsTrue, map};
ghost use Rattle.std.specs.List.{list_all};
ghost use Rattle.hilti_types.specs.Keys.{IsKey, key_over};

use crate::declared::Declared;
use crate::table::TypeTable;
use crate::value_type::{ValueType, ValueTypes};

/// Whether a type is a key type: its values have an order and a hash, and may be the keys of a map, the elements of a
/// set and the parts of a classifier's rule. Key types are the scalars, the enums of the table, and the tuples of
/// nothing but key types.
#[cycle(is_key)]
pub fn is_key(types: &TypeTable, t: &ValueType) -> bool
    ensures { IsTrue result ↔ IsKey types.now t.now }
{
    match t {
        ValueType::Bool
        | ValueType::Int { bits: _ }
        | ValueType::Text
        | ValueType::Bytes
        | ValueType::Addr
        | ValueType::Net
        | ValueType::Port
        | ValueType::Time
        | ValueType::Span => true,
        ValueType::Enum { n } => matches!(types.get(*n as usize), Some(Declared::Enum { .. })),
        ValueType::Tuple { parts } => are_keys(types, parts),
        ValueType::Callable | ValueType::Iter { over: _ } | ValueType::Ref { to: _ } => false,
    }
}

/// Whether all parts of a tuple are key types.
#[cycle(is_key)]
fn are_keys(types: &TypeTable, parts: &ValueTypes) -> bool
    ensures { result ≡ list_all (λ is_key. is_key) (map (key_over types.now) parts.now) }
{
    for part in parts.as_slice() {
        if !is_key(types, part) {
            return false;
        }
    }
    true
}
