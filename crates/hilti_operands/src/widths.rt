//! The types that numbers and Null take from the operands that are variables.
ghost use Rattle.std.specs.Prelude.{◌≡◌, length};
ghost use Rattle.std.specs.Option.{option_copied, unwrap_or};
ghost use Rattle.hilti_resolve.specs.Answering.{Makes};
ghost use Rattle.hilti_table.specs.Rows.{kinds};
ghost use Rattle.hilti_typing.specs.Fits as fits;
ghost use Rattle.hilti_operands.specs.Lines as spec;
ghost use Rattle.hilti_operands.specs.Seen.{body_seen};

use crate::lines::kind_at;
use crate::own::{copied, kind_given};
use crate::values::given;
use crate::view::BodyView;
use hilti_base::NoMemory;
use hilti_module::{Operand as Written, Simple};
use hilti_row_types::passes;
use hilti_table::{Kind, Takes, Test};
use hilti_types::{TypeTable, ValueType};
use std::alloc::Global;

/// Whether a kind asks for a value.
fn asks_value(kind: Kind) -> bool
    ensures { result ≡ spec.asks_value kind }
{
    matches!(
        kind,
        Kind::Fixed(_) | Kind::Sized | Kind::Part(_) | Kind::Same | Kind::Returned | Kind::Own(_)
    )
}

/// The type of an operand that is a variable.
fn variable_written(
    alloc: Global,
    body: &BodyView<'_>,
    operand: &Written,
) -> Result<Option<ValueType>, NoMemory>
    ensures { Makes result (spec.variable_written (body_seen body.now) operand.now) }
{
    match operand {
        Written::Simple(Simple::Name(name)) => Ok(kind_given(given(alloc, body, name)?)),
        _ => Ok(None),
    }
}

/// The type of an operand that is a variable, where a value is asked.
fn written_type(
    alloc: Global,
    body: &BodyView<'_>,
    kind: Kind,
    operand: &Written,
) -> Result<Option<ValueType>, NoMemory>
    ensures { Makes result (spec.written_type (body_seen body.now) kind operand.now) }
{
    if asks_value(kind) {
        variable_written(alloc, body, operand)
    } else {
        Ok(None)
    }
}

/// A type that is there and passes a test.
fn if_passing(types: &TypeTable, test: Test, kind: Option<ValueType>) -> Option<ValueType>
    ensures { result ≡ spec.if_passing types.now test kind }
{
    match kind {
        Some(kind) => {
            if passes(types, test, &kind) {
                Some(kind)
            } else {
                None
            }
        }
        None => None,
    }
}

/// The type of an operand that is a variable of a type that passes a test, where a value is asked.
fn passing_type(
    alloc: Global,
    body: &BodyView<'_>,
    test: Test,
    kind: Kind,
    operand: &Written,
) -> Result<Option<ValueType>, NoMemory>
    ensures { Makes result (spec.if_passing body.now.tables.now.types test
        (spec.written_type (body_seen body.now) kind operand.now)) }
{
    let own = written_type(alloc, body, kind, operand)?;
    Ok(if_passing(&body.tables.types, test, own))
}

/// The type of the first operand that is a variable of a type that passes a test.
fn first_variable(
    alloc: Global,
    body: &BodyView<'_>,
    test: Test,
    takes: Takes,
    items: &[Written],
) -> Result<Option<ValueType>, NoMemory>
    ensures { Makes result (spec.first_variable (body_seen body.now) test
        (kinds takes (length items.now)) items.now) }
{
    for at in 0..items.len() {
        let Some(kind) = kind_at(takes, items.len(), at) else {
            return Ok(None);
        };
        match passing_type(alloc, body, test, kind, &items[at]) {
            Ok(Some(found)) => return Ok(Some(found)),
            Ok(None) => {}
            Err(NoMemory) => return Err(NoMemory),
        }
    }
    Ok(None)
}

/// The width of a whole number's type in bits, and 64 for all others.
fn width(kind: Option<&ValueType>) -> u8
    ensures { result ≡ unwrap_or (fits.int_width (option_copied kind.entry)) 64 }
{
    match kind {
        Some(ValueType::Int { bits }) => *bits,
        _ => 64,
    }
}

/// The width of a line's numbers: that of its first operand that is a variable of an int type, else of its target,
/// else 64.
pub fn written_width(
    alloc: Global,
    body: &BodyView<'_>,
    target: &Option<ValueType>,
    takes: Takes,
    items: &[Written],
) -> Result<u8, NoMemory>
    ensures { Makes result (spec.written_width (body_seen body.now) target.now
        (kinds takes (length items.now)) items.now) }
{
    match first_variable(alloc, body, Test::Int, takes, items)? {
        Some(kind) => Ok(width(Some(&kind))),
        None => Ok(width(target.as_ref())),
    }
}

/// The type of Null where no other is asked: that of the first operand that is a variable of a type with Null, else that
/// of the target.
pub fn written_null(
    alloc: Global,
    body: &BodyView<'_>,
    target: &Option<ValueType>,
    takes: Takes,
    items: &[Written],
) -> Result<Option<ValueType>, NoMemory>
    ensures { Makes result (spec.written_null (body_seen body.now) target.now
        (kinds takes (length items.now)) items.now) }
{
    match first_variable(alloc, body, Test::Nullable, takes, items)? {
        Some(kind) => Ok(Some(kind)),
        None => Ok(copied(alloc, target)?),
    }
}
