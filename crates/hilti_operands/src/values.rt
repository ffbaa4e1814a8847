//! Written values.
ghost use Rattle.std.specs.Prelude.{◌≡◌, IfOk};
ghost use Rattle.std.specs.Option.{option_copied};
ghost use Rattle.hilti_typing.specs.Context.{variable_type as type_of_variable};
ghost use Rattle.hilti_parts.specs.Named.{given_kind};
ghost use Rattle.hilti_resolve.specs.Answering.{Makes};
ghost use Rattle.hilti_operands.specs.Answers.{Told};
ghost use Rattle.hilti_operands.specs.Seen.{body_seen, line_seen, known_of, context};
ghost use Rattle.hilti_operands.specs.Values as spec;
ghost use Rattle.hilti_scope.specs.Scopes.{means};

use crate::codes::{BAD_KIND, NOT_SENDABLE, refusal};
use crate::known::{Known, known_part, known_type};
use crate::literal::read_literal;
use crate::start::{simple_start, wrong};
use crate::view::{BodyView, LineView};
use hilti_base::{NoMemory, Place, Refusal};
use hilti_module::{Literal, Name, Simple};
use hilti_parts::{Operand, Variable};
use hilti_resolve::literal_type;
use hilti_row_types::{copy_type, is_same, passes, plain_type};
use hilti_scope::{Meaning, Scope};
use hilti_table::{Kind, Test};
use hilti_types::{TypeTable, ValueType};
use std::alloc::Global;

/// A number of 32 bits. A greater one takes more memory than there is.
pub fn whole(n: usize) -> Result<u32, NoMemory>
    ensures { Makes result n }
{
    if n <= u32::MAX as usize {
        Ok(n as u32)
    } else {
        Err(NoMemory)
    }
}

/// The variable that a name means.
fn variable_meant(meaning: Meaning) -> Result<Option<Variable>, NoMemory>
    ensures { Makes result (spec.variable_meant meaning) }
{
    match meaning {
        Meaning::Local { slot } => {
            let n = whole(slot)?;
            Ok(Some(Variable::Slot { n }))
        }
        Meaning::Global { n } => Ok(Some(Variable::Global { n })),
        _ => Ok(None),
    }
}

/// The type of a variable.
fn variable_type<'a>(body: &BodyView<'a>, variable: Variable) -> Option<&'a ValueType>
    ensures { option_copied result ≡ type_of_variable (context (body_seen body.now)) variable }
{
    match variable {
        Variable::Slot { n } => body.function.slots.get(n as usize),
        Variable::Global { n } => match body.tables.globals.get(n as usize) {
            Some(global) => Some(&global.kind),
            None => None,
        },
    }
}

/// A variable with its type.
fn with_its_type(
    alloc: Global,
    body: &BodyView<'_>,
    variable: Variable,
) -> Result<Option<Operand>, NoMemory>
    ensures { Makes result (spec.with_its_type (body_seen body.now) variable) }
{
    match variable_type(body, variable) {
        Some(kind) => {
            let kind = copy_type(alloc, kind)?;
            Ok(Some(Operand::Var { v: variable, kind }))
        }
        None => Ok(None),
    }
}

/// The variable of a name, with its type.
pub fn given(alloc: Global, body: &BodyView<'_>, name: &Name) -> Result<Option<Operand>, NoMemory>
    ensures { Makes result (spec.given (body_seen body.now) name.now) }
{
    match variable_meant(body.scope.meaning(name))? {
        Some(variable) => Ok(with_its_type(alloc, body, variable)?),
        None => Ok(None),
    }
}

/// The type of what an operand gives.
pub fn kind_of(operand: &Operand) -> Option<&ValueType>
    ensures { option_copied result ≡ given_kind operand.now }
{
    match operand {
        Operand::Var { v: _, kind } | Operand::Literal { kind, value: _ } => Some(kind),
        _ => None,
    }
}

fn is_of_type(kind: &ValueType, own: Option<&ValueType>) -> bool
    ensures { result ≡ spec.is_of_type kind.now (option_copied own.entry) }
{
    match own {
        Some(own) => is_same(own, kind),
        None => false,
    }
}

/// A variable of a type.
fn variable_of_type(
    kind: &ValueType,
    refusal: Refusal,
    found: Option<Operand>,
) -> Result<Operand, Refusal>
    ensures { result ≡ spec.variable_of_type kind.now refusal found }
{
    match found {
        Some(operand) => {
            if is_of_type(kind, kind_of(&operand)) {
                Ok(operand)
            } else {
                Err(refusal)
            }
        }
        None => Err(refusal),
    }
}

/// A value of a type: a variable of it, or a literal of it.
pub fn read_value(
    alloc: Global,
    body: &BodyView<'_>,
    kind: &ValueType,
    simple: &Simple,
) -> Result<Operand, Refusal>
    ensures { Told result (spec.read_value (body_seen body.now) kind.now simple.now) }
{
    match simple {
        Simple::Name(name) => {
            let found = given(alloc, body, name)?;
            variable_of_type(kind, wrong(body, simple), found)
        }
        Simple::Literal(literal) => read_literal(alloc, body, kind, literal),
        _ => Err(wrong(body, simple)),
    }
}

/// A value of a type that is asked.
pub fn read_asked(
    alloc: Global,
    body: &BodyView<'_>,
    kind: Option<&ValueType>,
    simple: &Simple,
) -> Result<Operand, Refusal>
    ensures { Told result
        (spec.read_asked (body_seen body.now) (option_copied kind.entry) simple.now) }
{
    match kind {
        Some(kind) => read_value(alloc, body, kind, simple),
        None => Err(wrong(body, simple)),
    }
}

/// A value of the type that a kind asks for.
pub fn read_of_kind(
    alloc: Global,
    line: &LineView<'_>,
    kind: Kind,
    known: &Known,
    simple: &Simple,
) -> Result<Operand, Refusal>
    ensures { Told result (spec.read_asked (body_seen line.now.body)
        (spec.asked_type (line_seen line.now) kind (known_of (body_seen line.now.body) known.now))
        simple.now) }
{
    match kind {
        Kind::Fixed(plain) => read_value(alloc, &line.body, &plain_type(plain), simple),
        Kind::Sized => read_value(
            alloc,
            &line.body,
            &ValueType::Int { bits: line.width },
            simple,
        ),
        Kind::Part(part) => read_asked(
            alloc,
            &line.body,
            known_part(&line.body, part, known),
            simple,
        ),
        Kind::Same => read_asked(alloc, &line.body, known_type(&line.body, known), simple),
        _ => Err(wrong(&line.body, simple)),
    }
}
