//! The row of an addition.
use hilti_base::NoMemory;
use hilti_int::{IntOp, Width};
use hilti_parts::{Instruction, Operand, Operands, Variable};
use hilti_rows::{Binary, Row, Source, resolve};
use hilti_tree::Tree;
use hilti_types::{Op, ValueType};
use std::alloc::Global;
use std::test::Fail;

/// `int.add` of a variable of type int<8> and a number.
fn addition(alloc: Global) -> Result<Instruction, NoMemory> {
    let mut operands = Operands::new(alloc);
    operands.push(Operand::Var {
        v: Variable::Slot { n: 3 },
        kind: ValueType::Int { bits: 8 },
    })?;
    operands.push(Operand::Literal {
        kind: ValueType::Int { bits: 8 },
        value: Tree::Int(1),
    })?;
    Ok(Instruction {
        op: Op::IntAdd,
        target: Some(Variable::Global { n: 2 }),
        kind: Some(ValueType::Int { bits: 8 }),
        operands,
    })
}

#[test]
fn an_addition_has_a_row(rt: HostRuntime) -> Result<(), Fail> {
    let alloc = rt.alloc();
    let Some(Row::Binary { op, target, a, .. }) = resolve(alloc, &addition(alloc)?)? else {
        return Err("no row of two operands".into());
    };
    let add = Binary::Int {
        op: IntOp::Add,
        width: Width::W8,
    };
    assert_eq!(rt; op, add);
    assert_eq!(rt; target, Variable::Global { n: 2 });
    assert!(rt; matches!(a, Source::Slot { n: 3 }));
    Ok(())
}
