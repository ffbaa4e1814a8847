//! Types that are the same and types that differ in one word, kinds of types, and a table of structs that name one
//! another often.
use hilti_base::{Blob, NoMemory};
use hilti_types::{
    Declared, Inner, Member, Members, TypeTable, ValueType, ValueTypes, depth, is_key, is_sendable,
    same,
};
use sqlite_items::Boxed;
use std::alloc::Global;
use std::test::Fail;

/// `tuple<int<BITS>, ref<map<string, VALUE>>>`.
fn record(alloc: Global, bits: u8, value: ValueType) -> Result<ValueType, NoMemory> {
    let mut parts = ValueTypes::new(alloc);
    parts.push(ValueType::Int { bits })?;
    let to = Inner::Map {
        key: Boxed::new(alloc, ValueType::Text)?,
        value: Boxed::new(alloc, value)?,
    };
    parts.push(ValueType::Ref { to })?;
    Ok(ValueType::Tuple { parts })
}

#[test]
fn every_part_tells(rt: HostRuntime) -> Result<(), Fail> {
    let one = record(rt.alloc(), 16, ValueType::Addr)?;
    assert!(rt; same(&one, &record(rt.alloc(), 16, ValueType::Addr)?));
    assert!(rt; !same(&one, &record(rt.alloc(), 32, ValueType::Addr)?));
    assert!(rt; !same(&one, &record(rt.alloc(), 16, ValueType::Net)?));
    assert!(rt; !same(&one, &ValueType::Text));
    assert!(rt; !same(&ValueType::Bytes, &ValueType::Text));
    Ok(())
}

/// Whether a type is a key, whether it is sendable, and how deep it nests.
fn judged(alloc: Global, kind: &ValueType) -> (bool, bool, u32) {
    let none = TypeTable::new(alloc);
    (
        is_key(&none, kind),
        is_sendable(&none, kind),
        depth(&none, kind),
    )
}

#[test]
fn kinds_of_types_are_judged(rt: HostRuntime) -> Result<(), Fail> {
    let alloc = rt.alloc();
    assert_eq!(rt; judged(alloc, &ValueType::Text), (true, true, 1));
    assert_eq!(rt; judged(alloc, &ValueType::Callable), (false, false, 1));
    let tuple = record(alloc, 8, ValueType::Port)?;
    assert_eq!(rt; judged(alloc, &tuple), (false, true, 3));
    let over = Inner::List {
        item: Boxed::new(alloc, ValueType::Bool)?,
    };
    assert_eq!(rt; judged(alloc, &ValueType::Iter { over }), (false, false, 3));
    Ok(())
}

fn reference(to: Inner) -> ValueType {
    ValueType::Ref { to }
}

fn field(alloc: Global, kind: ValueType) -> Result<Member, NoMemory> {
    let name = Blob::of(alloc, b"field")?;
    Ok(Member { name, kind })
}

/// Fields of references to a struct.
fn references(alloc: Global, n: u32, count: u32) -> Result<Members, NoMemory> {
    let mut fields = Members::new(alloc);
    for _ in 0..count {
        fields.push(field(alloc, reference(Inner::Struct { n }))?)?;
    }
    Ok(fields)
}

fn add_struct(types: &mut TypeTable, alloc: Global, fields: Members) -> Result<(), NoMemory> {
    let name = Blob::of(alloc, b"S")?;
    types.push(Declared::Struct { name, fields })
}

/// A struct with one field, and 15 more, each with ten fields of the one before.
fn tenfold(alloc: Global, first: ValueType) -> Result<TypeTable, NoMemory> {
    let mut types = TypeTable::new(alloc);
    let mut fields = Members::new(alloc);
    fields.push(field(alloc, first)?)?;
    add_struct(&mut types, alloc, fields)?;
    for before in 0..15 {
        add_struct(&mut types, alloc, references(alloc, before, 10)?)?;
    }
    Ok(types)
}

#[test]
fn structs_are_judged_once(rt: HostRuntime) -> Result<(), Fail> {
    let types = tenfold(rt.alloc(), ValueType::Port)?;
    let last = reference(Inner::Struct { n: 15 });
    assert!(rt; is_sendable(&types, &last));
    assert_eq!(rt; depth(&types, &last), 17);
    let types = tenfold(rt.alloc(), ValueType::Callable)?;
    assert!(rt; !is_sendable(&types, &last));
    Ok(())
}

#[test]
fn a_table_is_a_list(rt: HostRuntime) -> Result<(), Fail> {
    let types = tenfold(rt.alloc(), ValueType::Port)?;
    assert!(rt; types.is_sendable_at(15));
    assert_eq!(rt; types.depth_at(15), 17);
    assert!(rt; !types.is_empty());
    assert_eq!(rt; types.len(), 16);
    assert!(rt; types.get(16).is_none());
    assert_eq!(rt; types.as_slice().len(), 16);
    assert_eq!(rt; types.into_vec().len(), 16);
    Ok(())
}
