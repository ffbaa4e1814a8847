//! Rules and queries whose answers follow by hand from priorities and the order of adding.
ghost use Rattle.std.specs.Prelude.{◌≡◌, [], ◌∷◌, IfOk};

use hilti_addr::{Net, v4};
use hilti_base::NoMemory;
use hilti_classifier::{Added, Classifier, Field, Fields, Got, Want, Wants, laws};
use std::alloc::Global;
use std::test::Fail;

/// One part of a rule.
fn one(alloc: Global, want: Want<u64>) -> Result<Wants<u64>, NoMemory>
    ensures { IfOk result (λ wants. wants ≡ want ∷ []) }
{
    let mut wants = Wants::new(alloc);
    wants.push(want)?;
    Ok(wants)
}

#[test]
fn greatest_priority_wins(rt: HostRuntime) -> Result<(), Fail> {
    let address = v4(0x0a00_0001);
    let host = Net {
        addr: address,
        len: 128,
    };
    let mut rules: Classifier<u64, u8> = Classifier::new(rt.alloc());
    let any = one(rt.alloc(), Want::Any)?;
    assert_eq!(rt; rules.add(any, 1, b'a'), Ok(Added::Ok));
    let prefix = one(rt.alloc(), Want::Prefix { net: host })?;
    assert_eq!(rt; rules.add(prefix, 0, b'b'), Ok(Added::Ok));
    let mut query = Fields::new(rt.alloc());
    query.push(Field::Addr { a: address })?;
    assert_eq!(rt; rules.get(&query), Got::NotCompiled);
    rules.compile()?;
    assert_eq!(rt; rules.get(&query), Got::At(0));
    assert_eq!(rt; rules.len(), 2);
    assert_eq!(rt; rules.value(0), Some(&b'a'));
    assert_eq!(rt; rules.value(2), None);
    let late = one(rt.alloc(), Want::Any)?;
    assert_eq!(rt; rules.add(late, 9, b'c'), Ok(Added::Compiled));
    Ok(())
}

#[test]
fn first_added_of_equal_priorities(rt: HostRuntime) -> Result<(), Fail> {
    let mut rules: Classifier<u64, u8> = Classifier::new(rt.alloc());
    let mut query = Fields::new(rt.alloc());
    query.push(Field::Other { key: 80 })?;
    let other = one(rt.alloc(), Want::Exact { key: 81 })?;
    assert_eq!(rt; rules.add(other, 5, b'a'), Ok(Added::Ok));
    let first = one(rt.alloc(), Want::Exact { key: 80 })?;
    assert_eq!(rt; rules.add(first, 5, b'b'), Ok(Added::Ok));
    let second = one(rt.alloc(), Want::Any)?;
    assert_eq!(rt; rules.add(second, 5, b'c'), Ok(Added::Ok));
    rules.compile()?;
    assert_eq!(rt; rules.get(&query), Got::At(1));
    Ok(())
}

#[test]
fn nothing_matches_without_rules(rt: HostRuntime) -> Result<(), Fail> {
    let mut rules: Classifier<u64, u8> = Classifier::new(rt.alloc());
    let mut query = Fields::new(rt.alloc());
    query.push(Field::Addr { a: v4(0x0a00_0001) })?;
    rules.compile()?;
    assert_eq!(rt; rules.get(&query), Got::None);
    laws::one_answer::<u64, u8>();
    Ok(())
}
