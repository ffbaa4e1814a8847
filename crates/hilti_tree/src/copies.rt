ghost use Rattle.std.specs.Prelude.{◌≡◌, IfOk};

use crate::call::Call;
use crate::tree::{Forest, Tree};
use hilti_base::{Blob, NoMemory, Numbers};
use std::alloc::Global;

/// A copy of a tree, which shares nothing with it.
#[cycle(copy)]
pub fn copy(alloc: Global, tree: &Tree) -> Result<Tree, NoMemory>
    ensures { IfOk result (λ copied. copied ≡ tree.now) }
{
    Ok(match tree {
        Tree::Bool(value) => Tree::Bool(*value),
        Tree::Int(n) => Tree::Int(*n),
        Tree::Text(bytes) => Tree::Text(Blob::of(alloc, bytes.bytes())?),
        Tree::Bytes(bytes) => Tree::Bytes(Blob::of(alloc, bytes.bytes())?),
        Tree::Addr(address) => Tree::Addr(*address),
        Tree::Net(address, length) => Tree::Net(*address, *length),
        Tree::Port(n, is_udp) => Tree::Port(*n, *is_udp),
        Tree::Time(nanos) => Tree::Time(*nanos),
        Tree::Span(nanos) => Tree::Span(*nanos),
        Tree::Pick(n) => Tree::Pick(*n),
        Tree::Null => Tree::Null,
        Tree::Unset => Tree::Unset,
        Tree::Tuple(parts) => Tree::Tuple(copy_trees(alloc, parts)?),
        Tree::List(items) => Tree::List(copy_trees(alloc, items)?),
        Tree::Vector(items) => Tree::Vector(copy_trees(alloc, items)?),
        Tree::Set(keys) => Tree::Set(copy_trees(alloc, keys)?),
        Tree::Map(keys, values) => Tree::Map(copy_trees(alloc, keys)?, copy_trees(alloc, values)?),
        Tree::Fields(fields) => Tree::Fields(copy_trees(alloc, fields)?),
        Tree::Rules {
            fields,
            priorities,
            values,
            compiled,
        } => Tree::Rules {
            fields: copy_trees(alloc, fields)?,
            priorities: copy_numbers(alloc, priorities)?,
            values: copy_trees(alloc, values)?,
            compiled: *compiled,
        },
    })
}

/// Copies of trees, in their order.
#[cycle(copy)]
fn copy_trees(alloc: Global, trees: &Forest) -> Result<Forest, NoMemory>
    ensures { IfOk result (λ copied. copied ≡ trees.now) }
{
    let mut copied = Forest::new(alloc);
    for tree in trees.as_slice() {
        copied.push(copy(alloc, tree)?)?;
    }
    Ok(copied)
}

fn copy_numbers(alloc: Global, numbers: &Numbers) -> Result<Numbers, NoMemory>
    ensures { IfOk result (λ copied. copied ≡ numbers.now) }
{
    let mut copied = Numbers::new(alloc);
    for n in numbers.as_slice() {
        copied.push(*n)?;
    }
    Ok(copied)
}

/// A copy of a call, which shares nothing with it.
pub fn copy_call(alloc: Global, call: &Call) -> Result<Call, NoMemory>
    ensures { IfOk result (λ copied. copied ≡ call.now) }
{
    Ok(Call {
        function: call.function,
        args: copy_trees(alloc, &call.args)?,
    })
}
