//! Serials and objects are counted by hand.
use hilti_base::{FnId, Raise};
use hilti_heap::{Heap, OpFault};
use hilti_heap_ops::{
    callable_bind, new_struct, ref_is_null, struct_get, struct_is_set, struct_set, struct_unset,
};
use hilti_values::{Value, Values};
use std::test::Fail;

#[test]
fn null_raises_before_all_else(rt: HostRuntime) -> Result<(), Fail> {
    let mut heap = Heap::new(rt.alloc());
    let null = Value::Null;
    let is_set = struct_is_set(&heap, &null, 0);
    assert!(rt; matches!(is_set, Err(OpFault::Raise(Raise::NullReference))));
    assert!(rt; matches!(ref_is_null(&null), Value::Bool(true)));
    Ok(())
}

#[test]
fn a_new_struct_is_unset(rt: HostRuntime) -> Result<(), Fail> {
    let mut heap = Heap::new(rt.alloc());
    let Ok(Some(object)) = new_struct(rt.alloc(), &mut heap, 2) else {
        return Err("no struct".into());
    };
    assert_eq!(rt; heap.kept(), 1);
    let is_set = struct_is_set(&heap, &object, 1);
    assert!(rt; matches!(is_set, Ok(Some(Value::Bool(false)))));
    let field = struct_get(rt.alloc(), &mut heap, &object, 1);
    assert!(rt; matches!(field, Err(OpFault::Raise(Raise::UnsetField))));
    Ok(())
}

#[test]
fn sets_and_unsets_a_field(rt: HostRuntime) -> Result<(), Fail> {
    let mut heap = Heap::new(rt.alloc());
    let Ok(Some(object)) = new_struct(rt.alloc(), &mut heap, 1) else {
        return Err("no struct".into());
    };
    let was_set = struct_set(rt.alloc(), &mut heap, &object, 0, &Value::Int(7));
    assert!(rt; matches!(was_set, Ok(None)));

    let mut other_heap = Heap::new(rt.alloc());
    let Ok(Some(other)) = new_struct(rt.alloc(), &mut other_heap, 1) else {
        return Err("no struct".into());
    };
    let was_unset = struct_unset(&mut other_heap, &other, 0);
    assert!(rt; matches!(was_unset, Ok(None)));
    Ok(())
}

#[test]
fn binds_no_arguments(rt: HostRuntime) -> Result<(), Fail> {
    let mut heap = Heap::new(rt.alloc());
    let arguments = Values::new(rt.alloc());
    let callable = callable_bind(&mut heap, FnId { n: 3 }, arguments);
    assert!(rt; matches!(callable, Ok(Some(Value::Ref(_)))));
    Ok(())
}
