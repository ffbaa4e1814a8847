//! Targets of lines.
ghost use Rattle.std.specs.Prelude.{◌≡◌, IfOk};
ghost use Rattle.std.specs.Option.{option_copied};
ghost use Rattle.hilti_resolve.specs.Answering.{Makes};
ghost use Rattle.hilti_operands.specs.Seen.{body_seen, line_seen, known_of};
ghost use Rattle.hilti_lines.specs.Targets as spec;

use crate::codes::{BAD_TARGET, UNKNOWN};
use crate::gives::gets;
use hilti_base::{NoMemory, Refusal};
use hilti_module::Name;
use hilti_operands::{BodyView, Known, LineView, given, kind_given, refusal};
use hilti_parts::{Operand, Variable};
use hilti_scope::Meaning;
use hilti_table::Gives;
use hilti_types::ValueType;
use std::alloc::Global;

/// The variable that a target names, and its type.
#[derive(Debug, Drop)]
pub struct Target {
    pub variable: Option<Variable>,
    pub kind: Option<ValueType>,
}

fn variable_named(operand: &Operand) -> Option<Variable>
    ensures { result ≡ spec.variable_named operand.now }
{
    match operand {
        Operand::Var { v, kind: _ } => Some(*v),
        _ => None,
    }
}

/// The variable that a target names.
fn target_given(
    alloc: Global,
    body: &BodyView<'_>,
    target: Option<&Name>,
) -> Result<Option<Operand>, NoMemory>
    ensures { Makes result (spec.target_given (body_seen body.now) (option_copied target.entry)) }
{
    match target {
        Some(name) => given(alloc, body, name),
        None => Ok(None),
    }
}

/// What a target names.
pub fn find_target(
    alloc: Global,
    body: &BodyView<'_>,
    target: Option<&Name>,
) -> Result<Target, NoMemory>
    ensures variable { IfOk result (λ found. found.variable
        ≡ spec.target_variable (body_seen body.now) (option_copied target.entry)) }
    ensures kind { IfOk result (λ found. found.kind
        ≡ spec.target_type (body_seen body.now) (option_copied target.entry)) }
{
    match target_given(alloc, body, target)? {
        Some(operand) => Ok(Target {
            variable: variable_named(&operand),
            kind: kind_given(Some(operand)),
        }),
        None => Ok(Target {
            variable: None,
            kind: None,
        }),
    }
}

/// Whether a target that is written is a variable.
fn is_variable(target: Option<&Name>, kind: &Option<ValueType>) -> bool
    ensures { result ≡ spec.is_variable (option_copied target.entry) kind.now }
{
    match target {
        Some(_) => kind.is_some(),
        None => true,
    }
}

/// Whether the target of a line is one that its row allows.
pub fn is_target(
    alloc: Global,
    line: &LineView<'_>,
    target: Option<&Name>,
    rule: Gives,
    known: &Known,
) -> Result<bool, NoMemory>
    ensures { Makes result (spec.is_target (line_seen line.now) (option_copied target.entry) rule
        (known_of (body_seen line.now.body) known.now)) }
{
    if is_variable(target, line.target) {
        gets(alloc, line, rule, known)
    } else {
        Ok(false)
    }
}

fn target_code(meaning: Meaning) -> u32
    ensures { result ≡ spec.target_code meaning }
{
    match meaning {
        Meaning::Nothing => UNKNOWN,
        _ => BAD_TARGET,
    }
}

/// The refusal of a wrong target: code 21 at a name that means nothing, else 32; where none is written, at the mnemonic.
pub fn target_refusal(line: &LineView<'_>, target: Option<&Name>) -> Refusal
    ensures { result ≡ spec.target_refusal (line_seen line.now) (option_copied target.entry) }
{
    match target {
        Some(name) => refusal(name.first.place, target_code(line.body.scope.meaning(name))),
        None => refusal(line.mnemonic, BAD_TARGET),
    }
}
