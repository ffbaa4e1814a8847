//! Sizes counted by hand: a node counts 1, a text and bytes their length on top, and each priority 1.
ghost use Rattle.std.specs.Prelude.{◌≡◌, IfOk};
ghost use Rattle.hilti_tree.specs.Sizes.{tree_size};

use hilti_base::{Blob, FnId, NoMemory, Numbers};
use hilti_tree::{Call, Forest, Tree, copy, copy_call, size};
use std::alloc::Global;
use std::test::Fail;

/// A tuple of the number 5 and the text `ab`: 1, and 1, and 1 with 2.
fn pair(alloc: Global) -> Result<Tree, NoMemory>
    ensures { IfOk result (λ tree. tree_size tree ≡ 5) }
{
    let mut parts = Forest::new(alloc);
    parts.push(Tree::Int(5))?;
    parts.push(Tree::Text(Blob::of(alloc, b"ab")?))?;
    Ok(Tree::Tuple(parts))
}

/// One rule of two parts that match everything, with priority 7 and the value true: 1, and 3, and 1, and 1.
fn rules(alloc: Global) -> Result<Tree, NoMemory>
    ensures { IfOk result (λ tree. tree_size tree ≡ 6) }
{
    let mut parts = Forest::new(alloc);
    parts.push(Tree::Unset)?;
    parts.push(Tree::Unset)?;
    let mut fields = Forest::new(alloc);
    fields.push(Tree::Tuple(parts))?;
    let mut priorities = Numbers::new(alloc);
    priorities.push(7)?;
    let mut values = Forest::new(alloc);
    values.push(Tree::Bool(true))?;
    Ok(Tree::Rules {
        fields,
        priorities,
        values,
        compiled: false,
    })
}

#[test]
fn counts_nodes_and_lengths(rt: HostRuntime) -> Result<(), Fail> {
    assert_eq!(rt; size(&pair(rt.alloc())?), 5);
    assert_eq!(rt; size(&rules(rt.alloc())?), 6);
    Ok(())
}

#[test]
fn copies_all_parts(rt: HostRuntime) -> Result<(), Fail> {
    let copied = copy(rt.alloc(), &pair(rt.alloc())?)?;
    let Tree::Tuple(parts) = copied else {
        return Err("no tuple".into());
    };
    assert_eq!(rt; parts.len(), 2);
    assert!(rt; matches!(parts.get(0), Some(Tree::Int(5))));
    let Some(Tree::Text(text)) = parts.get(1) else {
        return Err("no text".into());
    };
    assert_eq!(rt; text.bytes(), b"ab".as_slice());
    Ok(())
}

#[test]
fn copies_a_call(rt: HostRuntime) -> Result<(), Fail> {
    let mut args = Forest::new(rt.alloc());
    args.push(Tree::Pick(3))?;
    let call = Call {
        function: FnId { n: 4 },
        args,
    };
    let copied = copy_call(rt.alloc(), &call)?;
    assert_eq!(rt; copied.function, FnId { n: 4 });
    assert_eq!(rt; copied.args.len(), 1);
    assert!(rt; matches!(copied.args.get(0), Some(Tree::Pick(3))));
    Ok(())
}
