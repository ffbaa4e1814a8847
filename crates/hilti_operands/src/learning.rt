//! What operands tell of those behind them.
ghost use Rattle.std.specs.Prelude.{◌≡◌, map, slice_get};
ghost use Rattle.std.specs.Option.{option_copied, option_map};
ghost use Rattle.hilti_parts.specs.Named.{given_kind};
ghost use Rattle.hilti_resolve.specs.Answering.{Makes};
ghost use Rattle.hilti_typing.specs.Fits as fits;
ghost use Rattle.hilti_typing.specs.Types as typing;
ghost use Rattle.hilti_types.specs.declared.value_type.ValueType.TheVariants as types;
ghost use Rattle.hilti_operands.specs.Lines.{Knows, Tells};
ghost use Rattle.hilti_operands.specs.Seen.{body_seen, line_seen, known_of, context, setting};

use crate::known::{Known, known_object, known_overlay, known_type};
use crate::values::kind_of;
use crate::view::{BodyView, LineView};
use hilti_base::NoMemory;
use hilti_parts::{Operand, Operands};
use hilti_row_types::{copy_object, copy_type, fields_of, parts_of};
use hilti_table::Kind;
use hilti_tree::Tree;
use hilti_types::{ValueType, ValueTypes};
use std::alloc::Global;

/// A type is known, if there is one.
fn knowing(alloc: Global, body: &BodyView<'_>, kind: Option<&ValueType>) -> Result<Known, NoMemory>
    ensures { Knows (body_seen body.now) result (fits.knowing (option_copied kind.entry)) }
{
    match kind {
        Some(kind) => {
            let kind = copy_type(alloc, kind)?;
            Ok(Known::Of { kind })
        }
        None => Ok(Known::Nothing),
    }
}

/// The function that an operand names is known.
fn calling(body: &BodyView<'_>, operand: &Operand) -> Known
    ensures { known_of (body_seen body.now) result
        ≡ fits.calling (fits.callee (context (body_seen body.now)) operand.now) }
{
    match operand {
        Operand::Function { f } => Known::Function { n: f.n },
        _ => Known::Nothing,
    }
}

/// The hook that an operand names is known.
fn running(body: &BodyView<'_>, operand: &Operand) -> Known
    ensures { known_of (body_seen body.now) result
        ≡ fits.calling (fits.hook (context (body_seen body.now)) operand.now) }
{
    match operand {
        Operand::Hook { n } => Known::Hook { n: *n },
        _ => Known::Nothing,
    }
}

/// The overlay that an operand names is known.
fn reading(body: &BodyView<'_>, operand: &Operand) -> Known
    ensures { known_of (body_seen body.now) result
        ≡ fits.reading (fits.overlay (context (body_seen body.now)) operand.now) }
{
    match operand {
        Operand::Overlay { n } => Known::Overlay { n: *n },
        _ => Known::Nothing,
    }
}

/// The type of a reference to the object that an operand names is known.
fn making(alloc: Global, body: &BodyView<'_>, operand: &Operand) -> Result<Known, NoMemory>
    ensures { Knows (body_seen body.now) result
        (fits.knowing (option_map types.Ref (fits.made operand.now))) }
{
    match operand {
        Operand::New { what } => {
            let to = copy_object(alloc, what)?;
            Ok(Known::Of {
                kind: ValueType::Ref { to },
            })
        }
        _ => Ok(Known::Nothing),
    }
}

/// The number that an operand is.
fn literal_number(operand: &Operand) -> Option<u64>
    ensures { result ≡ fits.literal_number operand.now }
{
    match operand {
        Operand::Literal {
            kind: _,
            value: Tree::Int(n),
        } => Some(*n),
        _ => None,
    }
}

/// The type of a part of a tuple.
fn part_at(kind: &ValueType, n: u64) -> Option<&ValueType>
    ensures { option_copied result ≡ slice_get (typing.parts_of kind.now) n }
{
    parts_of(kind).get(n as usize)
}

/// The type of the part of the known tuple whose place an operand is.
fn tuple_part<'a>(body: &BodyView<'_>, known: &'a Known, operand: &Operand) -> Option<&'a ValueType>
    ensures { option_copied result
        ≡ fits.tuple_part (known_of (body_seen body.now) known.now) operand.now }
{
    match literal_number(operand) {
        Some(n) => match known_type(body, known) {
            Some(kind) => part_at(kind, n),
            None => None,
        },
        None => None,
    }
}

/// The type of the field of the known struct that an operand names.
fn field<'a>(body: &BodyView<'a>, known: &Known, operand: &Operand) -> Option<&'a ValueType>
    ensures { option_copied result ≡ fits.field (context (body_seen body.now))
        (known_of (body_seen body.now) known.now) operand.now }
{
    match operand {
        Operand::Field { n } => match known_object(body, known) {
            Some(object) => match fields_of(&body.tables.types, object).get(*n as usize) {
                Some(member) => Some(&member.kind),
                None => None,
            },
            None => None,
        },
        _ => None,
    }
}

/// The type of the field of the known overlay that an operand names.
fn overlay_field<'a>(body: &BodyView<'a>, known: &Known, operand: &Operand) -> Option<&'a ValueType>
    ensures { option_copied result
        ≡ fits.overlay_field (known_of (body_seen body.now) known.now) operand.now }
{
    match operand {
        Operand::Field { n } => match known_overlay(body, known) {
            Some(fields) => match fields.get(*n as usize) {
                Some(field) => Some(&field.kind),
                None => None,
            },
            None => None,
        },
        _ => None,
    }
}

/// The type of a value in parentheses.
fn part_type(alloc: Global, operand: &Operand) -> Result<ValueType, NoMemory>
    ensures { Makes result (fits.given operand.now) }
{
    match kind_of(operand) {
        Some(kind) => Ok(copy_type(alloc, kind)?),
        None => Ok(ValueType::Bool),
    }
}

/// The types of values in parentheses.
fn part_types(alloc: Global, items: &Operands) -> Result<ValueTypes, NoMemory>
    ensures { Makes result (map fits.given items.now) }
{
    let mut parts = ValueTypes::new(alloc);
    for item in items.as_slice() {
        parts.push(part_type(alloc, item)?)?;
    }
    Ok(parts)
}

/// The type of a tuple of the values that an operand has in parentheses is known.
fn grouping(alloc: Global, body: &BodyView<'_>, operand: &Operand) -> Result<Known, NoMemory>
    ensures { Knows (body_seen body.now) result (fits.knowing (fits.tuple_type operand.now)) }
{
    match operand {
        Operand::Group { items } => {
            let parts = part_types(alloc, items)?;
            Ok(Known::Of {
                kind: ValueType::Tuple { parts },
            })
        }
        _ => Ok(Known::Nothing),
    }
}

/// What an operand of a kind tells, or None where nothing else is known behind it than before.
fn told(
    alloc: Global,
    line: &LineView<'_>,
    kind: Kind,
    known: &Known,
    operand: &Operand,
) -> Result<Option<Known>, NoMemory>
    ensures { Tells (body_seen line.now.body) (known_of (body_seen line.now.body) known.now) result
        (fits.learn (setting (line_seen line.now)) kind
        (known_of (body_seen line.now.body) known.now) operand.now) }
{
    let body = &line.body;
    match kind {
        Kind::Own(_) => Ok(Some(knowing(alloc, body, kind_of(operand))?)),
        Kind::Function(_) => Ok(Some(calling(body, operand))),
        Kind::Hook => Ok(Some(running(body, operand))),
        Kind::Overlay => Ok(Some(reading(body, operand))),
        Kind::New => Ok(Some(making(alloc, body, operand)?)),
        Kind::Index => Ok(Some(knowing(alloc, body, tuple_part(body, known, operand))?)),
        Kind::Field => Ok(Some(knowing(alloc, body, field(body, known, operand))?)),
        Kind::OverlayField => Ok(Some(knowing(alloc, body, overlay_field(body, known, operand))?)),
        Kind::Parts => Ok(Some(grouping(alloc, body, operand)?)),
        _ => Ok(None),
    }
}

/// What is known behind an operand of a kind.
pub fn learn(
    alloc: Global,
    line: &LineView<'_>,
    kind: Kind,
    known: Known,
    operand: &Operand,
) -> Result<Known, NoMemory>
    ensures { Knows (body_seen line.now.body) result (fits.learn (setting (line_seen line.now)) kind
        (known_of (body_seen line.now.body) known) operand.now) }
{
    match told(alloc, line, kind, &known, operand)? {
        Some(told) => Ok(told),
        None => Ok(known),
    }
}
