ghost use Rattle.std.specs.Prelude.{◌≡◌, IfOk};
ghost use Rattle.hilti_scalar_ops.specs.Computing.{TakesOne, TakesTwo, unary_of, binary_of};
ghost use Rattle.hilti_scalar_ops.specs.Computing.{number as number_of};
ghost use Rattle.hilti_scalar_ops.specs.declared.computing.Made.TheVariants as made;
ghost use Rattle.hilti_values.specs.declared.value.Value.TheVariants as values;

use crate::comparing::holds;
use crate::operands::{truth, whole};
use hilti_base::{NoMemory, Raise};
use hilti_int::{apply, fit, fit_exact};
use hilti_rows::{Binary, Unary};
use hilti_values::{Value, share};
use std::alloc::Global;

/// What an instruction computes: a value, or a raise in its place.
#[derive(Debug, Drop)]
pub enum Made {
    Gives { value: Value },
    Raises { raise: Raise },
}

/// A number, or the raise in its place.
#[inline]
fn number(outcome: Result<u64, Raise>) -> Made
    ensures { result ≡ number_of outcome }
{
    match outcome {
        Ok(n) => Made::Gives {
            value: Value::Int(n),
        },
        Err(raise) => Made::Raises { raise },
    }
}

#[inline]
fn truth_value(truth: bool) -> Made
    ensures { result ≡ made.Gives (values.Bool truth) }
{
    Made::Gives {
        value: Value::Bool(truth),
    }
}

/// What is computed of a value. Only a tuple and an iterator take memory.
#[inline]
pub fn compute_unary(alloc: Global, op: Unary, a: &Value) -> Result<Made, NoMemory>
    requires { TakesOne op a.now }
    ensures { IfOk result (λ made. made ≡ unary_of op a.now) }
{
    let made = match op {
        Unary::Assign => Made::Gives {
            value: share(alloc, a)?,
        },
        Unary::Not => truth_value(!truth(a)),
        Unary::IntAs { width } => number(Ok(fit(width, whole(a)))),
        Unary::IntAsExact { width } => number(fit_exact(width, whole(a))),
    };
    Ok(made)
}

/// What is computed of two values. It takes no memory.
#[inline]
pub fn compute_binary(op: Binary, a: &Value, b: &Value) -> Made
    requires { TakesTwo op a.now b.now }
    ensures { result ≡ binary_of op a.now b.now }
{
    match op {
        Binary::And => truth_value(truth(a) && truth(b)),
        Binary::Or => truth_value(truth(a) || truth(b)),
        Binary::Int { op, width } => number(apply(op, width, whole(a), whole(b))),
        Binary::Compare { op, width } => truth_value(holds(op, width, whole(a), whole(b))),
    }
}
