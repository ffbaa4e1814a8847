//! Values that share bytes, first values and values of literals.
use hilti_base::Blob;
use hilti_tree::Tree;
use hilti_types::{ValueType, ValueTypes};
use hilti_values::{Reference, SharedBytes, Value, Values, first_value, literal_value, share};
use std::marker::Send;
use std::test::Fail;

/// A value may go from one thread to another.
#[test]
fn changes_threads() {
    fn may_change_threads<T: Send>() {}
    may_change_threads::<Value>();
}

#[test]
fn shares_the_bytes_of_a_tuple(rt: HostRuntime) -> Result<(), Fail> {
    let mut parts = Values::new(rt.alloc());
    parts.push(Value::Text(SharedBytes::of(rt.alloc(), b"ab")?))?;
    parts.push(Value::Ref(Reference::new(7, 3)))?;
    let shared = share(rt.alloc(), &Value::Tuple(parts))?;
    let Value::Tuple(parts) = shared else {
        return Err("no tuple".into());
    };
    let Some(Value::Text(text)) = parts.get(0) else {
        return Err("no text".into());
    };
    assert_eq!(rt; text.bytes(), b"ab".as_slice());
    let Some(Value::Ref(object)) = parts.get(1) else {
        return Err("no reference".into());
    };
    assert_eq!(rt; (object.serial(), object.place()), (7, 3));
    Ok(())
}

#[test]
fn begins_with_the_mapped_address(rt: HostRuntime) -> Result<(), Fail> {
    let mut kinds = ValueTypes::new(rt.alloc());
    kinds.push(ValueType::Net)?;
    let first = first_value(rt.alloc(), &ValueType::Tuple { parts: kinds })?;
    let Value::Tuple(parts) = first else {
        return Err("no tuple".into());
    };
    let Some(Value::Net { length, address }) = parts.get(0) else {
        return Err("no net".into());
    };
    assert_eq!(rt; (*length, *address), (96, 281470681743360));
    Ok(())
}

#[test]
fn reads_a_literal(rt: HostRuntime) -> Result<(), Fail> {
    let tree = Tree::Bytes(Blob::of(rt.alloc(), b"\x00\xff")?);
    let Some(Value::Bytes(bytes)) = literal_value(rt.alloc(), &tree)? else {
        return Err("no bytes".into());
    };
    assert_eq!(rt; bytes.bytes(), b"\x00\xff".as_slice());
    assert!(rt; literal_value(rt.alloc(), &Tree::Unset)?.is_none());
    Ok(())
}
