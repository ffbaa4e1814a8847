//! Serials and objects are counted by hand.
use hilti_heap::{Heap, Object};
use hilti_record::Record;
use hilti_values::{Reference, Value};
use std::test::Fail;

#[test]
fn finds_what_it_keeps(rt: HostRuntime) -> Result<(), Fail> {
    let mut heap = Heap::new(rt.alloc());
    assert!(rt; !heap.is_full());
    assert_eq!(rt; heap.draw(), 0);
    let Ok(object) = heap.make(Object::Struct(Record::new(rt.alloc(), 1)?)) else {
        return Err("no memory".into());
    };
    assert_eq!(rt; (heap.kept(), object.serial()), (1, 1));
    if let Some(Object::Struct(fields)) = heap.change(&object) {
        assert_eq!(rt; fields.len(), 1);
        fields.set(0, Value::Int(7));
    }
    let Some(Object::Struct(fields)) = heap.look(&object) else {
        return Err("no struct".into());
    };
    assert_eq!(rt; fields.len(), 1);
    assert!(rt; matches!(fields.get(0), Some(Value::Int(7))));
    assert!(rt; heap.look(&Reference::new(0, 0)).is_none());
    Ok(())
}
