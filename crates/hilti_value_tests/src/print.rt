//! Each text once. Texts of addresses come from Python's ipaddress.
use hilti_base::{Blob, Names, NoMemory, Numbers};
use hilti_print::{address, escaped, moment, net, number, port, tree};
use hilti_tree::{Forest, Tree};
use hilti_types::{Declared, Inner, Member, Members, TypeTable, ValueType, ValueTypes};
use std::alloc::Global;
use std::test::Fail;

#[test]
fn writes_texts(rt: HostRuntime) -> Result<(), Fail> {
    let mut out = Blob::new(rt.alloc());
    number(&mut out, 18_446_744_073_709_551_615)?;
    out.append(b" ")?;
    moment(&mut out, 1_400_000_000_000_001_000)?;
    out.append(b" ")?;
    escaped(&mut out, b"a\"\\\x00\xff~")?;
    let text = b"18446744073709551615 1400000000.000001000 a\\\"\\\\\\x00\\xff~";
    assert_eq!(rt; out.bytes(), text.as_slice());
    Ok(())
}

#[test]
fn writes_addresses(rt: HostRuntime) -> Result<(), Fail> {
    let addresses = [
        0xffff_0a00_0001,
        0x2001_0db8_0000_0000_0001_0000_0000_0001,
        0,
        0x0001_0000_0002_0003_0004_0005_0006_0007,
        0xfe80_0000_0000_0000_0000_0000_0000_0000,
    ];
    let mut out = Blob::new(rt.alloc());
    for a in addresses {
        address(&mut out, a)?;
        out.append(b" ")?;
    }
    net(&mut out, 0xffff_0a00_0000, 104)?;
    out.append(b" ")?;
    net(&mut out, 0x2001_0db8_0000_0000_0000_0000_0000_0000, 32)?;
    out.append(b" ")?;
    port(&mut out, 53, true)?;
    let text =
        b"10.0.0.1 2001:db8::1:0:0:1 :: 1:0:2:3:4:5:6:7 fe80:: 10.0.0.0/8 2001:db8::/32 53/udp";
    assert_eq!(rt; out.bytes(), text.as_slice());
    Ok(())
}

/// A struct with the fields `f` and `g`, and an enum with the word `Red`.
fn table(alloc: Global) -> Result<TypeTable, NoMemory> {
    let mut fields = Members::new(alloc);
    fields.push(Member {
        name: Blob::of(alloc, b"f")?,
        kind: ValueType::Text,
    })?;
    fields.push(Member {
        name: Blob::of(alloc, b"g")?,
        kind: ValueType::Bool,
    })?;
    let mut words = Names::new(alloc);
    words.push(Blob::of(alloc, b"Red")?)?;
    let mut types = TypeTable::new(alloc);
    let name = Blob::of(alloc, b"S")?;
    types.push(Declared::Struct { name, fields })?;
    let name = Blob::of(alloc, b"E")?;
    types.push(Declared::Enum { name, words })?;
    Ok(types)
}

#[test]
fn writes_values(rt: HostRuntime) -> Result<(), Fail> {
    let alloc = rt.alloc();
    let types = table(alloc)?;
    let mut out = Blob::new(alloc);
    let mut fields = Forest::new(alloc);
    fields.push(Tree::Text(Blob::of(alloc, b"a\"")?))?;
    fields.push(Tree::Unset)?;
    let shape = ValueType::Ref {
        to: Inner::Struct { n: 0 },
    };
    tree(&mut out, &Tree::Fields(fields), &shape, &types)?;
    let mut parts = ValueTypes::new(alloc);
    parts.push(ValueType::Enum { n: 1 })?;
    let mut trees = Forest::new(alloc);
    trees.push(Tree::Pick(0))?;
    trees.push(Tree::Pick(7))?;
    tree(
        &mut out,
        &Tree::Tuple(trees),
        &ValueType::Tuple { parts },
        &types,
    )?;
    let mut keys = Forest::new(alloc);
    keys.push(Tree::Bool(false))?;
    keys.push(Tree::Bool(true))?;
    let mut values = Forest::new(alloc);
    values.push(Tree::Null)?;
    values.push(Tree::List(Forest::new(alloc)))?;
    tree(&mut out, &Tree::Map(keys, values), &ValueType::Bool, &types)?;
    let rules = Tree::Rules {
        fields: Forest::new(alloc),
        priorities: Numbers::new(alloc),
        values: Forest::new(alloc),
        compiled: false,
    };
    tree(&mut out, &rules, &ValueType::Bool, &types)?;
    let bytes = Tree::Bytes(Blob::of(alloc, b"hi\n")?);
    tree(&mut out, &bytes, &ValueType::Bytes, &types)?;
    let text = b"<f=\"a\\\"\", g=unset>(Red, 7){False: Null, True: []}classifier(0)hi\\x0a";
    assert_eq!(rt; out.bytes(), text.as_slice());
    Ok(())
}
