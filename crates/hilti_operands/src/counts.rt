//! How many operands stand in parentheses.
ghost use Rattle.std.specs.Prelude.{◌≡◌, length};
ghost use Rattle.std.specs.Option.{option_copied};
ghost use Rattle.hilti_resolve.specs.Answering.{Makes};
ghost use Rattle.hilti_table.specs.Rows.{kinds};
ghost use Rattle.hilti_typing.specs.Context.{Known as knows};
ghost use Rattle.hilti_operands.specs.Counts as spec;
ghost use Rattle.hilti_operands.specs.Lines.{Knows};
ghost use Rattle.hilti_operands.specs.Operands.{read_operand as operand_told};
ghost use Rattle.hilti_operands.specs.Seen.{body_seen, line_seen, known_of};

use crate::groups::{is_counted, member_types};
use crate::known::Known;
use crate::learning::learn;
use crate::lines::kind_at;
use crate::operands::read_operand;
use crate::view::LineView;
use hilti_base::{NoMemory, Refusal};
use hilti_module::{Operand as Written, Simple};
use hilti_table::{Family, Kind, Takes, Test};
use hilti_types::ValueType;
use std::alloc::Global;

/// Whether an operand tells how many stand in the parentheses behind it.
fn tells_count(kind: Kind) -> bool
    ensures { result ≡ spec.tells_count kind }
{
    matches!(
        kind,
        Kind::Function(_) | Kind::Hook | Kind::Own(Test::Object(Family::Classifier))
    )
}

/// What an operand tells, where it can be read.
fn known_behind(
    alloc: Global,
    line: &LineView<'_>,
    kind: Kind,
    operand: &Written,
) -> Result<Known, NoMemory>
    ensures { Knows (body_seen line.now.body) result (spec.known_behind (line_seen line.now) kind
        (operand_told (line_seen line.now) kind knows.Nothing operand.now)) }
{
    match read_operand(alloc, line, kind, &Known::Nothing, operand) {
        Ok(operand) => learn(alloc, line, kind, Known::Nothing, &operand),
        Err(Refusal::At { .. }) => Ok(Known::Nothing),
        Err(Refusal::NoMemory) => Err(NoMemory),
    }
}

/// What an operand tells of the number in the parentheses behind it.
fn count_told(
    alloc: Global,
    line: &LineView<'_>,
    kind: Kind,
    operand: &Written,
) -> Result<Known, NoMemory>
    ensures { Knows (body_seen line.now.body) result
        (spec.count_told (line_seen line.now) kind operand.now) }
{
    if tells_count(kind) {
        known_behind(alloc, line, kind, operand)
    } else {
        Ok(Known::Nothing)
    }
}

/// Whether operands in parentheses have the number that is told, if one is.
fn is_as_told(group: Kind, items: &[Simple], asked: Option<&[ValueType]>) -> bool
    ensures { result ≡ spec.is_as_told group items.now (option_copied asked.entry) }
{
    match asked {
        Some(kinds) => is_counted(group, kinds.len(), items.len()),
        None => true,
    }
}

/// Whether an operand has the number in parentheses that is told.
fn is_group_counted(line: &LineView<'_>, kind: Kind, known: &Known, operand: &Written) -> bool
    ensures { result ≡ spec.is_group_counted (line_seen line.now) kind
        (known_of (body_seen line.now.body) known.now) operand.now }
{
    match operand {
        Written::Simple(_) => true,
        Written::Group { place: _, items } => {
            is_as_told(kind, items.as_slice(), member_types(line, kind, known))
        }
    }
}

/// Whether all operands in parentheses have the numbers that the operands right before them tell.
pub fn are_counted(
    alloc: Global,
    line: &LineView<'_>,
    takes: Takes,
    items: &[Written],
) -> Result<bool, NoMemory>
    ensures { Makes result (spec.are_counted (line_seen line.now) (kinds takes (length items.now))
        knows.Nothing items.now) }
{
    let mut known = Known::Nothing;
    for at in 0..items.len() {
        let Some(kind) = kind_at(takes, items.len(), at) else {
            return Ok(true);
        };
        if !is_group_counted(line, kind, &known, &items[at]) {
            return Ok(false);
        }
        match count_told(alloc, line, kind, &items[at]) {
            Ok(told) => {
                known = told;
            }
            Err(NoMemory) => return Err(NoMemory),
        }
    }
    Ok(true)
}
