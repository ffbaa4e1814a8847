//! Expected hashes come from a program of ten lines in Python.
ghost use Rattle.std.specs.Prelude.{◌≡◌, [], ◌∷◌, IfOk};
ghost use Rattle.hilti_tree.specs.declared.tree.Tree.TheVariants.{Tuple};

use hilti_base::{Blob, NoMemory};
use hilti_keys::{hash, hash_bytes, order};
use hilti_tree::{Forest, Tree};
use std::alloc::Global;
use std::cmp::Ordering;
use std::test::Fail;

fn pair(alloc: Global, first: Tree, second: Tree) -> Result<Tree, NoMemory>
    ensures { IfOk result (λ pair. pair ≡ Tuple (first ∷ second ∷ [])) }
{
    let mut parts = Forest::new(alloc);
    parts.push(first)?;
    parts.push(second)?;
    Ok(Tree::Tuple(parts))
}

#[test]
fn orders_keys(rt: HostRuntime) -> Result<(), Fail> {
    let alloc = rt.alloc();
    let low = pair(alloc, Tree::Bool(true), Tree::Net(0xffff_0a00_0000, 104))?;
    let high = pair(alloc, Tree::Bool(true), Tree::Net(0xffff_0a00_0000, 112))?;
    assert_eq!(rt; order(&low, &high), Ordering::Less);
    assert_eq!(rt; order(&high, &low), Ordering::Greater);
    assert_eq!(rt; order(&low, &low), Ordering::Equal);
    let prefix = Tree::Text(Blob::of(alloc, b"ab")?);
    let longer = Tree::Text(Blob::of(alloc, b"abc")?);
    assert_eq!(rt; order(&prefix, &longer), Ordering::Less);
    Ok(())
}

#[test]
fn hashes_keys(rt: HostRuntime) -> Result<(), Fail> {
    let alloc = rt.alloc();
    let truths = pair(alloc, Tree::Bool(true), Tree::Bool(false))?;
    assert_eq!(rt; hash(&truths), 2_000_007);
    assert_eq!(rt; hash(&Tree::Bool(false)), 1);
    let net = Tree::Net(0xffff_0a00_0000, 104);
    assert_eq!(rt; hash(&net), 7_333_978_608_869_677_799);
    assert_eq!(rt; hash(&Tree::Port(80, true)), 1_000_087_000_254);
    let text = Tree::Text(Blob::of(alloc, b"ab")?);
    assert_eq!(rt; hash(&text), 678_621_792_348_143_739);
    assert_eq!(rt; hash(&Tree::Pick(3)), 1_000_010_000_034_000_043);
    assert_eq!(rt; hash_bytes(b"ab"), 98_000_393);
    Ok(())
}
