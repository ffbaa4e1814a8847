//! A call, its return, and a call that is given up.
use hilti_base::FnId;
use hilti_parts::Variable;
use hilti_stack::{Head, Position, Stack};
use hilti_values::Value;

fn whole(value: &Value) -> Option<u64> {
    match value {
        Value::Int(n) => Some(*n),
        _ => None,
    }
}

fn caller(function: u32) -> Head {
    Head::Function(Position {
        function: FnId { n: function },
        block: 2,
        at: 3,
        target: Some(Variable::Slot { n: 1 }),
    })
}

#[test]
fn a_call_and_its_return(rt: HostRuntime) {
    let mut stack = Stack::new(rt.alloc());
    assert!(rt; stack.make(Value::Int(7)).is_ok());
    stack.begin();
    assert_eq!(rt; stack.slots().len(), 1);
    assert!(rt; stack.make(Value::Int(8)).is_ok());
    assert!(rt; stack.make(Value::Bool(true)).is_ok());
    assert_eq!(rt; stack.made().len(), 2);
    assert!(rt; stack.enter(caller(4)).is_ok());
    assert_eq!(rt; stack.depth(), 1);
    assert_eq!(rt; whole(&stack.set(0, Value::Int(9))), Some(8));
    assert_eq!(rt; whole(stack.slot(0)), Some(9));
    assert_eq!(rt; stack.leave(), Some(caller(4)));
    assert_eq!(rt; stack.slots().first().and_then(whole), Some(7));
    assert_eq!(rt; stack.leave(), None);
}

#[test]
fn a_callee_is_given_up(rt: HostRuntime) {
    let mut stack = Stack::new(rt.alloc());
    assert!(rt; stack.make(Value::Null).is_ok());
    stack.unmake();
    assert_eq!(rt; stack.made().len(), 0);
}
