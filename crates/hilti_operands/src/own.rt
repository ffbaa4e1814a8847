//! Written values where a row asks for no type, but a type of some kind.
ghost use Rattle.std.specs.Prelude.{◌≡◌};
ghost use Rattle.std.specs.Option.{option_copied};
ghost use Rattle.hilti_resolve.specs.Answering.{Makes};
ghost use Rattle.hilti_scope.specs.Scopes.{means};
ghost use Rattle.hilti_operands.specs.Answers.{Told};
ghost use Rattle.hilti_operands.specs.Seen.{body_seen, line_seen};
ghost use Rattle.hilti_operands.specs.Values as spec;

use crate::codes::{BAD_KIND, NOT_SENDABLE, refusal};
use crate::start::{simple_start, wrong};
use crate::values::{given, kind_of, read_value};
use crate::view::{BodyView, LineView};
use hilti_base::{NoMemory, Place, Refusal};
use hilti_module::{Literal, Simple};
use hilti_parts::Operand;
use hilti_resolve::literal_type;
use hilti_row_types::{copy_type, passes};
use hilti_scope::Scope;
use hilti_table::Test;
use hilti_types::{TypeTable, ValueType};
use std::alloc::Global;

/// The types that a number and Null have where none is asked.
#[derive(Debug, Drop)]
pub struct Untyped {
    pub number: Option<ValueType>,
    pub null: Option<ValueType>,
}

/// A copy of a type that may be there.
pub fn copied(alloc: Global, kind: &Option<ValueType>) -> Result<Option<ValueType>, NoMemory>
    ensures { Makes result kind.now }
{
    match kind {
        Some(kind) => Ok(Some(copy_type(alloc, kind)?)),
        None => Ok(None),
    }
}

/// The type that an operand gives.
pub fn kind_given(found: Option<Operand>) -> Option<ValueType>
    ensures { result ≡ spec.kind_given found }
{
    match found {
        Some(Operand::Var { v: _, kind }) => Some(kind),
        Some(Operand::Literal { kind, value: _ }) => Some(kind),
        _ => None,
    }
}

/// The type that a literal has by itself.
fn type_of_literal(scope: &Scope<'_>, untyped: Untyped, literal: &Literal) -> Option<ValueType>
    ensures { result ≡ spec.literal_by untyped (means scope.now) literal.now }
{
    match literal {
        Literal::Number(_) => untyped.number,
        Literal::Null { .. } => untyped.null,
        _ => literal_type(scope, literal),
    }
}

/// The type that a value has by itself.
fn own_type(
    alloc: Global,
    body: &BodyView<'_>,
    untyped: Untyped,
    simple: &Simple,
) -> Result<Option<ValueType>, NoMemory>
    ensures { Makes result (spec.own_type (body_seen body.now) untyped simple.now) }
{
    match simple {
        Simple::Name(name) => Ok(kind_given(given(alloc, body, name)?)),
        Simple::Literal(literal) => Ok(type_of_literal(body.scope, untyped, literal)),
        _ => Ok(None),
    }
}

/// A value of the type that it has by itself.
pub fn read_own(
    alloc: Global,
    body: &BodyView<'_>,
    untyped: Untyped,
    simple: &Simple,
) -> Result<Operand, Refusal>
    ensures { Told result (spec.read_own (body_seen body.now) untyped simple.now) }
{
    let own = own_type(alloc, body, untyped, simple)?;
    match own {
        Some(kind) => read_value(alloc, body, &kind, simple),
        None => Err(wrong(body, simple)),
    }
}

/// The types that a number and Null have where a value has to pass a test.
fn untyped_by(alloc: Global, line: &LineView<'_>, test: Test) -> Result<Untyped, NoMemory>
    ensures { Makes result (spec.untyped_by (line_seen line.now) test) }
{
    match test {
        Test::Any => {
            let null = copied(alloc, line.null)?;
            Ok(Untyped {
                number: Some(ValueType::Int { bits: line.width }),
                null,
            })
        }
        Test::Key => Ok(Untyped {
            number: Some(ValueType::Int { bits: line.width }),
            null: None,
        }),
        Test::Sendable | Test::Int => Ok(Untyped {
            number: Some(ValueType::Int { bits: 64 }),
            null: None,
        }),
        Test::Nullable | Test::Tuple | Test::Iterator | Test::Object(_) => Ok(Untyped {
            number: None,
            null: None,
        }),
    }
}

/// Whether a type that may be there passes a test.
fn is_passing(types: &TypeTable, test: Test, kind: Option<&ValueType>) -> bool
    ensures { result ≡ spec.is_passing types.now test (option_copied kind.entry) }
{
    match kind {
        Some(kind) => passes(types, test, kind),
        None => false,
    }
}

fn test_code(test: Test) -> u32
    ensures { result ≡ spec.test_code test }
{
    match test {
        Test::Sendable => NOT_SENDABLE,
        _ => BAD_KIND,
    }
}

/// An operand whose type passes a test.
fn tested(
    body: &BodyView<'_>,
    test: Test,
    place: Place,
    operand: Operand,
) -> Result<Operand, Refusal>
    ensures { result ≡ spec.tested (body_seen body.now) test place operand }
{
    if is_passing(&body.tables.types, test, kind_of(&operand)) {
        Ok(operand)
    } else {
        Err(refusal(place, test_code(test)))
    }
}

/// A value whose own type passes a test. One of a type that isn't sendable is refused with code 35.
#[tactic(auto, using(crate::proofs::Telling::first_told))]
pub fn read_tested(
    alloc: Global,
    line: &LineView<'_>,
    test: Test,
    simple: &Simple,
) -> Result<Operand, Refusal>
    ensures { Told result (spec.read_tested (line_seen line.now) test simple.now) }
{
    let untyped = untyped_by(alloc, line, test)?;
    match read_own(alloc, &line.body, untyped, simple) {
        Ok(operand) => tested(&line.body, test, simple_start(simple), operand),
        Err(refusal) => Err(refusal),
    }
}

/// A value of the type of the body's result, and any value where the body has none.
pub fn read_returned(
    alloc: Global,
    line: &LineView<'_>,
    simple: &Simple,
) -> Result<Operand, Refusal>
    ensures { Told result
        (spec.read_returned (line_seen line.now) line.now.body.function.now.result simple.now) }
{
    match &line.body.function.result {
        Some(kind) => read_value(alloc, &line.body, kind, simple),
        None => read_own(
            alloc,
            &line.body,
            Untyped {
                number: Some(ValueType::Int { bits: line.width }),
                null: None,
            },
            simple,
        ),
    }
}
