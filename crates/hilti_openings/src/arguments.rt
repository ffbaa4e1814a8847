//! The values of arguments.
ghost use Rattle.std.specs.Prelude.{◌≡◌, map, IfOk};
ghost use Rattle.hilti_effects.specs.Effect.{value_of_tree};

use hilti_base::NoMemory;
use hilti_tree::{Forest, Tree};
use hilti_values::{SharedBytes, Value, Values};
use std::alloc::Global;

/// The value of a tree that holds no object: of a scalar, or of a tuple of such. The trees of objects have none yet,
/// and give Null.
#[cycle(arguments)]
pub fn tree_value(alloc: Global, tree: &Tree) -> Result<Value, NoMemory>
    ensures { IfOk result (λ value. value ≡ value_of_tree tree.now) }
{
    Ok(match tree {
        Tree::Bool(truth) => Value::Bool(*truth),
        Tree::Int(n) => Value::Int(*n),
        Tree::Text(bytes) => Value::Text(SharedBytes::of(alloc, bytes.bytes())?),
        Tree::Bytes(bytes) => Value::Bytes(SharedBytes::of(alloc, bytes.bytes())?),
        Tree::Addr(address) => Value::Addr(*address),
        Tree::Net(address, length) => Value::Net {
            length: *length,
            address: *address,
        },
        Tree::Port(n, is_udp) => Value::Port(*n, *is_udp),
        Tree::Time(nanos) => Value::Time(*nanos),
        Tree::Span(nanos) => Value::Span(*nanos),
        Tree::Pick(n) => Value::Pick(*n),
        Tree::Tuple(parts) => Value::Tuple(tree_values(alloc, parts)?),
        Tree::Null
        | Tree::Unset
        | Tree::List(_)
        | Tree::Vector(_)
        | Tree::Set(_)
        | Tree::Map(_, _)
        | Tree::Fields(_)
        | Tree::Rules { .. } => Value::Null,
    })
}

/// The values of trees, in their order.
#[cycle(arguments)]
fn tree_values(alloc: Global, trees: &Forest) -> Result<Values, NoMemory>
    ensures { IfOk result (λ values. values ≡ map value_of_tree trees.now) }
{
    let mut values = Values::new(alloc);
    for tree in trees.as_slice() {
        values.push(tree_value(alloc, tree)?)?;
    }
    Ok(values)
}
