//! One instruction of each shape on two bytes.
use hilti_base::Raise;
use hilti_int::{IntCmp, IntOp, Width};
use hilti_rows::{Binary, Unary};
use hilti_scalar_ops::{Made, compute_binary, compute_unary};
use hilti_values::Value;

#[test]
fn computes(rt: HostRuntime) {
    let (a, b) = (Value::Int(255), Value::Int(1));
    let width = Width::W8;
    let op = IntOp::Add;
    let sum = compute_binary(Binary::Int { op, width }, &a, &b);
    assert!(rt;
        matches!(
            sum,
            Made::Gives {
                value: Value::Int(0)
            }
        )
    );
    let op = IntOp::AddExact;
    let past = compute_binary(Binary::Int { op, width }, &a, &b);
    assert!(rt;
        matches!(
            past,
            Made::Raises {
                raise: Raise::ValueError
            }
        )
    );
    let op = IntCmp::Slt;
    let less = compute_binary(Binary::Compare { op, width }, &a, &b);
    assert!(rt;
        matches!(
            less,
            Made::Gives {
                value: Value::Bool(true)
            }
        )
    );
    let same = compute_unary(rt.alloc(), Unary::Assign, &a);
    assert!(rt;
        matches!(
            same,
            Ok(Made::Gives {
                value: Value::Int(255)
            })
        )
    );
}
