//! Expected places and numbers come from Python's bytes.find, int and int.from_bytes.
ghost use Rattle.std.specs.Prelude.{◌≡◌, IfOk};
ghost use Rattle.hilti_values.specs.declared.value.Value.TheVariants as values;

use hilti_base::{NoMemory, Raise};
use hilti_bytes_ops::{BytesBinary, BytesUnary, compute_binary, compute_sub, compute_unary};
use hilti_values::{SharedBytes, Value};
use std::alloc::Global;
use std::test::Fail;

fn value(alloc: Global, bytes: &[u8]) -> Result<Value, NoMemory>
    ensures { IfOk result (λ value. value ≡ values.Bytes bytes.now) }
{
    Ok(Value::Bytes(SharedBytes::of(alloc, bytes)?))
}

#[test]
fn finds(rt: HostRuntime) -> Result<(), Fail> {
    let alloc = rt.alloc();
    let (text, front) = (value(alloc, b"aaaab")?, value(alloc, b"aa")?);
    let place = compute_binary(alloc, BytesBinary::Find, &text, &front)??;
    assert!(rt; matches!(place, Value::Int(0)));
    let nowhere = compute_binary(alloc, BytesBinary::Find, &front, &text)?;
    assert!(rt; matches!(nowhere, Err(Raise::IndexError)));
    let begins = compute_binary(alloc, BytesBinary::Starts, &text, &front)??;
    assert!(rt; matches!(begins, Value::Bool(true)));
    let byte = compute_binary(alloc, BytesBinary::Byte, &text, &Value::Int(4))??;
    assert!(rt; matches!(byte, Value::Int(98)));
    let past = compute_binary(alloc, BytesBinary::Byte, &text, &Value::Int(5))?;
    assert!(rt; matches!(past, Err(Raise::IndexError)));
    Ok(())
}

#[test]
fn joins(rt: HostRuntime) -> Result<(), Fail> {
    let alloc = rt.alloc();
    let both = compute_binary(
        alloc,
        BytesBinary::Join,
        &value(alloc, b"ab")?,
        &value(alloc, b"cd")?,
    )??;
    let part = compute_sub(alloc, &both, &Value::Int(1), &Value::Int(2))??;
    let Value::Bytes(part) = part else {
        return Err("no bytes".into());
    };
    assert_eq!(rt; part.bytes(), b"bc".as_slice());
    Ok(())
}

#[test]
fn reads_numbers(rt: HostRuntime) -> Result<(), Fail> {
    let alloc = rt.alloc();
    let raw = value(alloc, &[1, 2, 3])?;
    let length = compute_unary(BytesUnary::Length, &raw)?;
    assert!(rt; matches!(length, Value::Int(3)));
    let big = compute_unary(BytesUnary::ToUintBig, &raw)?;
    assert!(rt; matches!(big, Value::Int(66051)));
    let little = compute_unary(BytesUnary::ToUintLittle, &raw)?;
    assert!(rt; matches!(little, Value::Int(197121)));
    let text = value(alloc, b"dEadBeef")?;
    let number = compute_binary(alloc, BytesBinary::ToInt, &text, &Value::Int(16))??;
    assert!(rt; matches!(number, Value::Int(3735928559)));
    let decimal = compute_binary(alloc, BytesBinary::ToInt, &text, &Value::Int(10))?;
    assert!(rt; matches!(decimal, Err(Raise::ValueError)));
    Ok(())
}
