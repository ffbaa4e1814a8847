//! Operands in parentheses.
ghost use Rattle.std.specs.Prelude.{◌≡◌, length, slice_get};
ghost use Rattle.std.specs.Option.{option_copied, option_map};
ghost use Rattle.hilti_resolve.specs.Answering.{Makes};
ghost use Rattle.hilti_typing.specs.Fits as fits;
ghost use Rattle.hilti_typing.specs.Types as types;
ghost use Rattle.hilti_operands.specs.Answers.{Told};
ghost use Rattle.hilti_operands.specs.Groups as spec;
ghost use Rattle.hilti_operands.specs.Seen.{body_seen, line_seen, known_of, function_signature};
ghost use Rattle.hilti_operands.specs.Values as values;

use crate::codes::{BAD_COUNT, BAD_KIND, NOT_SENDABLE, refusal};
use crate::known::{Known, known_parts, known_rule};
use crate::own::{Untyped, copied, read_own};
use crate::start::simple_start;
use crate::values::{read_asked, read_value};
use crate::view::{BodyView, LineView};
use hilti_base::{NoMemory, Place, Refusal};
use hilti_link::LinkedFunction;
use hilti_module::Simple;
use hilti_parts::{Operand, Operands};
use hilti_row_types::{copy_type, is_int};
use hilti_table::Kind;
use hilti_types::{TypeTable, ValueType, is_sendable};
use std::alloc::Global;

/// Whether the type of a parameter is sendable.
fn is_sent(types: &TypeTable, kind: Option<&ValueType>) -> bool
    ensures { result ≡ spec.is_sent types.now (option_copied kind.entry) }
{
    match kind {
        Some(kind) => is_sendable(types, kind),
        None => false,
    }
}

/// An argument that is sent to another thread.
#[tactic(auto, using(crate::proofs::Telling::first_told))]
fn read_sent(
    alloc: Global,
    line: &LineView<'_>,
    kind: Option<&ValueType>,
    simple: &Simple,
) -> Result<Operand, Refusal>
    ensures { Told result
        (spec.read_sent (line_seen line.now) (option_copied kind.entry) simple.now) }
{
    match read_asked(alloc, &line.body, kind, simple) {
        Ok(operand) => {
            if is_sent(&line.body.tables.types, kind) {
                Ok(operand)
            } else {
                Err(refusal(simple_start(simple), NOT_SENDABLE))
            }
        }
        Err(refusal) => Err(refusal),
    }
}

/// The type of a number that is a part of a tuple.
fn number_in(
    alloc: Global,
    line: &LineView<'_>,
    part: Option<&ValueType>,
) -> Result<ValueType, NoMemory>
    ensures { Makes result (spec.number_in (line_seen line.now) (option_copied part.entry)) }
{
    match part {
        Some(part) => {
            if is_int(part) {
                Ok(copy_type(alloc, part)?)
            } else {
                Ok(ValueType::Int { bits: line.width })
            }
        }
        None => Ok(ValueType::Int { bits: line.width }),
    }
}

/// A copy of a type that may be there.
fn copied_part(alloc: Global, part: Option<&ValueType>) -> Result<Option<ValueType>, NoMemory>
    ensures { Makes result (option_copied part.entry) }
{
    match part {
        Some(part) => Ok(Some(copy_type(alloc, part)?)),
        None => Ok(None),
    }
}

/// A part of a tuple.
fn read_part(
    alloc: Global,
    line: &LineView<'_>,
    part: Option<&ValueType>,
    simple: &Simple,
) -> Result<Operand, Refusal>
    ensures { Told result
        (spec.read_part (line_seen line.now) (option_copied part.entry) simple.now) }
{
    let number = number_in(alloc, line, part)?;
    let null = copied_part(alloc, part)?;
    let untyped = Untyped {
        number: Some(number),
        null,
    };
    read_own(alloc, &line.body, untyped, simple)
}

/// A part of a rule: a value, or `*`.
fn read_match(
    alloc: Global,
    body: &BodyView<'_>,
    kind: Option<&ValueType>,
    simple: &Simple,
) -> Result<Operand, Refusal>
    ensures { Told result
        (spec.read_match (body_seen body.now) (option_copied kind.entry) simple.now) }
{
    match simple {
        Simple::Any { .. } => Ok(Operand::Star),
        _ => read_asked(alloc, body, kind, simple),
    }
}

/// What a classifier is asked for a part of its rules.
fn read_query(
    alloc: Global,
    body: &BodyView<'_>,
    kind: Option<&ValueType>,
    simple: &Simple,
) -> Result<Operand, Refusal>
    ensures { Told result (values.read_asked (body_seen body.now)
        (option_map types.asked_for (option_copied kind.entry)) simple.now) }
{
    match kind {
        Some(ValueType::Net) => read_value(alloc, body, &ValueType::Addr, simple),
        _ => read_asked(alloc, body, kind, simple),
    }
}

/// One of the operands of a group of a kind, where the type that belongs to its place is this.
fn read_member(
    alloc: Global,
    line: &LineView<'_>,
    group: Kind,
    kind: Option<&ValueType>,
    simple: &Simple,
) -> Result<Operand, Refusal>
    ensures { Told result
        (spec.read_member (line_seen line.now) group (option_copied kind.entry) simple.now) }
{
    match group {
        Kind::Sent => read_sent(alloc, line, kind, simple),
        Kind::Parts => read_part(alloc, line, kind, simple),
        Kind::Rule => read_match(alloc, &line.body, kind, simple),
        Kind::Query => read_query(alloc, &line.body, kind, simple),
        _ => read_asked(alloc, &line.body, kind, simple),
    }
}

/// The type that belongs to a place of a group.
fn type_at(kinds: &[ValueType], at: usize) -> Option<&ValueType>
    ensures { option_copied result ≡ slice_get kinds.now at }
{
    kinds.get(at)
}

/// The operands of a group of a kind, from left to right.
fn read_members(
    alloc: Global,
    line: &LineView<'_>,
    group: Kind,
    kinds: &[ValueType],
    items: &[Simple],
) -> Result<Operands, Refusal>
    ensures { Told result
        (spec.read_members (spec.read_member (line_seen line.now) group) kinds.now items.now) }
{
    let mut members = Operands::new(alloc);
    for at in 0..items.len() {
        match read_member(alloc, line, group, type_at(kinds, at), &items[at]) {
            Ok(member) => members.push(member)?,
            Err(refusal) => return Err(refusal),
        }
    }
    Ok(members)
}

/// The types of a function's parameters.
pub fn parameters(function: &LinkedFunction) -> &[ValueType]
    ensures { result.now ≡ (function_signature function.now).parameters }
{
    let slots = function.slots.as_slice();
    let count = function.parameters;
    if count < slots.len() {
        &slots[..count]
    } else {
        slots
    }
}

/// The types of the parameters of the known function or hook.
pub fn known_parameters<'a>(body: &BodyView<'a>, known: &Known) -> Option<&'a [ValueType]>
    ensures { option_copied result ≡ spec.parameters_of
        (fits.known_signature (known_of (body_seen body.now) known.now)) }
{
    match known {
        Known::Function { n } => match body.tables.functions.get(*n as usize) {
            Some(function) => Some(parameters(function)),
            None => None,
        },
        Known::Hook { n } => match body.tables.hooks.get(*n as usize) {
            Some(hook) => Some(hook.parameters.as_slice()),
            None => None,
        },
        _ => None,
    }
}

/// The types that belong to the places of a group.
pub fn member_types<'a>(
    line: &LineView<'a>,
    group: Kind,
    known: &'a Known,
) -> Option<&'a [ValueType]>
    ensures { option_copied result ≡ spec.member_types (line_seen line.now) group
        (known_of (body_seen line.now.body) known.now) }
{
    match group {
        Kind::Arguments | Kind::Sent => known_parameters(&line.body, known),
        Kind::Parts => Some(known_parts(line.target.as_ref())),
        Kind::Rule | Kind::Query => known_rule(&line.body, known),
        _ => None,
    }
}

/// Whether a group may have so many operands, where so many types belong to it.
pub fn is_counted(group: Kind, asked: usize, count: usize) -> bool
    ensures { result ≡ spec.is_counted group asked count }
{
    match group {
        Kind::Parts => 1 <= count && count <= 8,
        _ => asked == count,
    }
}

/// Operands in parentheses, where a kind asks for some. A wrong number of them is refused with code 31 at the mnemonic.
pub fn read_group(
    alloc: Global,
    line: &LineView<'_>,
    group: Kind,
    known: &Known,
    place: Place,
    items: &[Simple],
) -> Result<Operand, Refusal>
    ensures { Told result (spec.read_group (line_seen line.now) group
        (known_of (body_seen line.now.body) known.now) place items.now) }
{
    match member_types(line, group, known) {
        Some(kinds) => {
            if is_counted(group, kinds.len(), items.len()) {
                group_of(read_members(alloc, line, group, kinds, items))
            } else {
                Err(refusal(line.mnemonic, BAD_COUNT))
            }
        }
        None => Err(refusal(place, BAD_KIND)),
    }
}

/// Operands that were read, in parentheses.
fn group_of(read: Result<Operands, Refusal>) -> Result<Operand, Refusal>
    ensures { result ≡ spec.grouped_read read }
{
    match read {
        Ok(items) => Ok(Operand::Group { items }),
        Err(refusal) => Err(refusal),
    }
}
