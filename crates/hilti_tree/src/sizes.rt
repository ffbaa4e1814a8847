ghost use Rattle.std.specs.Prelude.{◌≡◌, ◌<◌, ◌^◌};
ghost use Rattle.hilti_tree.specs.Sizes.{tree_size, forest_size};

use crate::tree::{Forest, Tree};

/// The size of a tree: each node counts 1, each text and each list of bytes its length on top, and each priority of a
/// rule 1.
#[cycle(size)]
pub fn size(tree: &Tree) -> u64
    requires { tree_size tree.now < 2 ^ 64 }
    ensures { result ≡ tree_size tree.now }
{
    match tree {
        Tree::Bool(_)
        | Tree::Int(_)
        | Tree::Addr(_)
        | Tree::Net(_, _)
        | Tree::Port(_, _)
        | Tree::Time(_)
        | Tree::Span(_)
        | Tree::Pick(_)
        | Tree::Null
        | Tree::Unset => 1,
        Tree::Text(bytes) | Tree::Bytes(bytes) => 1 + bytes.len() as u64,
        Tree::Tuple(trees)
        | Tree::List(trees)
        | Tree::Vector(trees)
        | Tree::Set(trees)
        | Tree::Fields(trees) => 1 + size_of_all(trees),
        Tree::Map(keys, values) => 1 + (size_of_all(keys) + size_of_all(values)),
        Tree::Rules {
            fields,
            priorities,
            values,
            compiled: _,
        } => 1 + (size_of_all(fields) + priorities.len() as u64 + size_of_all(values)),
    }
}

/// The sizes of trees, added.
#[cycle(size)]
#[tactic(auto, using(crate::proofs::Added::below_all, crate::proofs::Added::one_more))]
fn size_of_all(trees: &Forest) -> u64
    requires { forest_size trees.now < 2 ^ 64 }
    ensures { result ≡ forest_size trees.now }
{
    let mut total = 0;
    for tree in trees.as_slice() {
        total += size(tree);
    }
    total
}
