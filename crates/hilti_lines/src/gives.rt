//! What rows ask of the type of a target.
ghost use Rattle.std.specs.Prelude.{◌≡◌, ◌∷◌, []};
ghost use Rattle.std.specs.Option.{option_copied, option_and_then, option_map};
ghost use Rattle.hilti_types.specs.declared.value_type.ValueType.TheVariants as types;
ghost use Rattle.hilti_resolve.specs.Answering.{Makes};
ghost use Rattle.hilti_typing.specs.Types as typing;
ghost use Rattle.hilti_typing.specs.Fits as fits;
ghost use Rattle.hilti_operands.specs.Seen.{body_seen, line_seen, known_of};
ghost use Rattle.hilti_lines.specs.Targets as spec;

use hilti_base::NoMemory;
use hilti_operands::{BodyView, Known, LineView, known_object, known_part, known_type};
use hilti_row_types::{copy_object, copy_type, is_int, is_same, iterated, plain_type};
use hilti_table::{Gives, Part};
use hilti_types::{Inner, ValueType, ValueTypes};
use std::alloc::Global;

/// Whether a type is what a row gives.
fn is_given(kind: &ValueType, given: Option<&ValueType>) -> bool
    ensures { result ≡ spec.is_given kind.now (option_copied given.entry) }
{
    match given {
        Some(given) => is_same(given, kind),
        None => false,
    }
}

/// Whether a target is there, and of the type that a row gives.
fn needs(target: &Option<ValueType>, given: Option<&ValueType>) -> bool
    ensures { result ≡ spec.needs target.now (option_copied given.entry) }
{
    match target {
        Some(kind) => is_given(kind, given),
        None => false,
    }
}

/// Whether a target that is there is of the type that a row gives.
fn may_take(target: &Option<ValueType>, given: Option<&ValueType>) -> bool
    ensures { result ≡ spec.may_take target.now (option_copied given.entry) }
{
    match target {
        Some(kind) => is_given(kind, given),
        None => true,
    }
}

/// Whether a target is there, and of the type that was made for it.
fn needs_made(target: &Option<ValueType>, given: Option<ValueType>) -> bool
    ensures { result ≡ spec.needs target.now given }
{
    match given {
        Some(given) => needs(target, Some(&given)),
        None => needs(target, None),
    }
}

/// Whether a target is there, and a whole number.
fn is_any_int(target: &Option<ValueType>) -> bool
    ensures { result ≡ spec.is_any_int target.now }
{
    match target {
        Some(kind) => is_int(kind),
        None => false,
    }
}

/// An iterator over an object.
fn iterator_over(alloc: Global, object: Option<&Inner>) -> Result<Option<ValueType>, NoMemory>
    ensures { Makes result (option_map types.Iter (option_copied object.entry)) }
{
    match object {
        Some(object) => {
            let over = copy_object(alloc, object)?;
            Ok(Some(ValueType::Iter { over }))
        }
        None => Ok(None),
    }
}

/// The type of a key and its value.
fn pair(alloc: Global, key: &ValueType, value: &ValueType) -> Result<ValueType, NoMemory>
    ensures { Makes result (types.Tuple (key.now ∷ value.now ∷ [])) }
{
    let mut parts = ValueTypes::new(alloc);
    let key = copy_type(alloc, key)?;
    parts.push(key)?;
    let value = copy_type(alloc, value)?;
    parts.push(value)?;
    Ok(ValueType::Tuple { parts })
}

/// What an iterator over a container gives.
fn item_of(alloc: Global, container: &Inner) -> Result<Option<ValueType>, NoMemory>
    ensures { Makes result (typing.item_of container.now) }
{
    match container {
        Inner::List { item } | Inner::Vector { item } | Inner::Set { item } => {
            let item = copy_type(alloc, item.get())?;
            Ok(Some(item))
        }
        Inner::Map { key, value } => {
            let both = pair(alloc, key.get(), value.get())?;
            Ok(Some(both))
        }
        _ => Ok(None),
    }
}

/// What an iterator of a type gives.
fn item_behind(alloc: Global, kind: Option<&ValueType>) -> Result<Option<ValueType>, NoMemory>
    ensures { Makes result (option_and_then typing.item_of
        (option_and_then typing.iterated (option_copied kind.entry))) }
{
    match kind {
        Some(kind) => match iterated(kind) {
            Some(container) => item_of(alloc, container),
            None => Ok(None),
        },
        None => Ok(None),
    }
}

/// The result of the known function. A hook has none.
fn known_result<'a>(body: &BodyView<'a>, known: &Known) -> Option<&'a ValueType>
    ensures { option_copied result
        ≡ fits.called_result (known_of (body_seen body.now) known.now) }
{
    match known {
        Known::Function { n } => match body.tables.functions.get(*n as usize) {
            Some(function) => function.result.as_ref(),
            None => None,
        },
        Known::Hook { .. } => None,
        _ => None,
    }
}

/// Whether the type of a line's target is the one that its row gives, behind what is known.
pub fn gets(
    alloc: Global,
    line: &LineView<'_>,
    gives: Gives,
    known: &Known,
) -> Result<bool, NoMemory>
    ensures { Makes result (spec.gets line.now.width line.now.target.now gives
        (known_of (body_seen line.now.body) known.now)) }
{
    let body = &line.body;
    match gives {
        Gives::Nothing => Ok(line.target.is_none()),
        Gives::Fixed(plain) => Ok(needs_made(line.target, Some(plain_type(plain)))),
        Gives::Sized => { Ok(needs_made(line.target, Some(ValueType::Int { bits: line.width }))) }
        Gives::Same => Ok(needs(line.target, known_type(body, known))),
        Gives::Part(part) => Ok(needs(line.target, known_part(body, part, known))),
        Gives::Popped => Ok(may_take(line.target, known_part(body, Part::First, known))),
        Gives::Called => Ok(may_take(line.target, known_result(body, known))),
        Gives::AnyInt => Ok(is_any_int(line.target)),
        Gives::Iterator => {
            let given = iterator_over(alloc, known_object(body, known))?;
            Ok(needs_made(line.target, given))
        }
        Gives::Item => {
            let given = item_behind(alloc, known_type(body, known))?;
            Ok(needs_made(line.target, given))
        }
    }
}
