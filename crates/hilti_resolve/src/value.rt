//! The types that written types stand for, where these keep the rules of types.
ghost use Rattle.std.specs.Prelude.{Ok, map};
ghost use Rattle.hilti_scope.specs.Scopes.{means};
ghost use Rattle.hilti_resolve.specs.Answering.{BreaksAs, Gives, Makes};
ghost use Rattle.hilti_resolve.specs.Values.{all_of, read_of, value_of as value_told};
ghost use Rattle.hilti_resolve.specs.Values.{parametric_value_of, inner_value_of};
ghost use Rattle.hilti_resolve.specs.Values.{container_value_of, single_value as single_told};
ghost use Rattle.hilti_resolve.specs.Values.{object_of as object_told};

use crate::fault::TypeFault;
use crate::inner_value::InnerValue;
use crate::rules::{
    inner_word, int_value, is_tuple_length, is_walked, iterator_value, named_inner, named_value,
    plain_value, reference_value, takes,
};
use hilti_base::{NoMemory, Place};
use hilti_module::{Container, Double, InnerText, Parametric, Single, TypeText, TypeTexts};
use hilti_scope::Scope;
use hilti_types::{Inner, TypeTable, ValueType, ValueTypes, is_key};
use sqlite_items::Boxed;
use std::alloc::Global;

/// The type that a written type stands for.
#[cycle(value)]
pub fn value_of(
    alloc: Global,
    scope: &Scope<'_>,
    table: &TypeTable,
    text: &TypeText,
) -> Result<ValueType, TypeFault>
    ensures kind { Gives result (value_told table.now (means scope.now) text.now) }
    ensures broken { BreaksAs result (value_told table.now (means scope.now) text.now) }
{
    match text {
        TypeText::Plain { place: _, plain } => Ok(plain_value(*plain)),
        TypeText::Parametric(parametric) => {
            Ok(parametric_value(alloc, scope, table, parametric)?)
        }
        TypeText::Named(name) => Ok(named_value(scope.meaning(name), name.first.place)?),
    }
}

/// The same of a type with something between `<` and `>`.
#[cycle(value)]
pub fn parametric_value(
    alloc: Global,
    scope: &Scope<'_>,
    table: &TypeTable,
    parametric: &Parametric,
) -> Result<ValueType, TypeFault>
    ensures kind { Gives result (parametric_value_of table.now (means scope.now) parametric.now) }
    ensures broken { BreaksAs result
        (parametric_value_of table.now (means scope.now) parametric.now) }
{
    match parametric {
        Parametric::Int { place, bits } => Ok(int_value(*place, bits.value)?),
        Parametric::Tuple { place, parts } => {
            if !is_tuple_length(parts.len()) {
                return Err(TypeFault::Broken { place: *place });
            }
            let parts = part_values(alloc, scope, table, parts)?;
            Ok(ValueType::Tuple { parts })
        }
        Parametric::Iterator { place, over } => {
            if !is_walked(over) {
                return Err(TypeFault::Broken { place: *place });
            }
            let container = inner_value(alloc, scope, table, over)?;
            Ok(iterator_value(*place, container)?)
        }
        Parametric::Ref { place, to } => {
            let object = inner_value(alloc, scope, table, to)?;
            Ok(reference_value(*place, object)?)
        }
    }
}

/// The types of the parts of a tuple.
#[cycle(value)]
fn part_values(
    alloc: Global,
    scope: &Scope<'_>,
    table: &TypeTable,
    parts: &TypeTexts,
) -> Result<ValueTypes, TypeFault>
    ensures kinds { Gives result (all_of (map (read_of table.now (means scope.now)) parts.now)) }
    ensures broken { BreaksAs result
        (all_of (map (read_of table.now (means scope.now)) parts.now)) }
{
    let mut values = ValueTypes::new(alloc);
    for part in parts.as_slice() {
        let value = value_of(alloc, scope, table, part)?;
        values.push(value)?;
    }
    Ok(values)
}

/// What stands for what is between the `<` and `>` of a reference or an iterator.
#[cycle(value)]
fn inner_value(
    alloc: Global,
    scope: &Scope<'_>,
    table: &TypeTable,
    inner: &InnerText,
) -> Result<InnerValue, TypeFault>
    ensures object { Gives result (inner_value_of table.now (means scope.now) inner.now) }
    ensures broken { BreaksAs result (inner_value_of table.now (means scope.now) inner.now) }
{
    match inner {
        InnerText::Word { place: _, word } => Ok(inner_word(*word)),
        InnerText::Container(container) => {
            let object = container_value(alloc, scope, table, container)?;
            Ok(InnerValue::Object(object))
        }
        InnerText::Declared(name) => Ok(named_inner(scope.meaning(name))),
    }
}

/// The type of an object that a written container stands for.
#[cycle(value)]
pub fn container_value(
    alloc: Global,
    scope: &Scope<'_>,
    table: &TypeTable,
    container: &Container,
) -> Result<Inner, TypeFault>
    ensures object { Gives result (container_value_of table.now (means scope.now) container.now) }
    ensures broken { BreaksAs result
        (container_value_of table.now (means scope.now) container.now) }
{
    match container {
        Container::Single {
            place,
            single,
            item,
        } => {
            let kind = value_of(alloc, scope, table, item.get())?;
            Ok(single_value(alloc, table, *place, *single, kind)?)
        }
        Container::Double {
            place,
            double,
            first,
            second,
        } => {
            if !takes(*double, first.get()) {
                return Err(TypeFault::Broken { place: *place });
            }
            let first_kind = value_of(alloc, scope, table, first.get())?;
            if !is_key(table, &first_kind) {
                return Err(TypeFault::Broken { place: *place });
            }
            let second_kind = value_of(alloc, scope, table, second.get())?;
            Ok(object_of(alloc, *double, first_kind, second_kind)?)
        }
    }
}

/// A container of one type; the elements of a set are of a key type.
fn single_value(
    alloc: Global,
    table: &TypeTable,
    place: Place,
    single: Single,
    kind: ValueType,
) -> Result<Inner, TypeFault>
    ensures object { Gives result (single_told table.now place single (Ok kind)) }
    ensures broken { BreaksAs result (single_told table.now place single (Ok kind)) }
{
    match single {
        Single::List => {
            let item = Boxed::new(alloc, kind)?;
            Ok(Inner::List { item })
        }
        Single::Vector => {
            let item = Boxed::new(alloc, kind)?;
            Ok(Inner::Vector { item })
        }
        Single::Set => {
            if !is_key(table, &kind) {
                return Err(TypeFault::Broken { place });
            }
            let item = Boxed::new(alloc, kind)?;
            Ok(Inner::Set { item })
        }
    }
}

/// The type of a map or a classifier.
fn object_of(
    alloc: Global,
    double: Double,
    first: ValueType,
    second: ValueType,
) -> Result<Inner, NoMemory>
    ensures { Makes result (object_told double first second) }
{
    let first = Boxed::new(alloc, first)?;
    let second = Boxed::new(alloc, second)?;
    Ok(match double {
        Double::Map => Inner::Map {
            key: first,
            value: second,
        },
        Double::Classifier => Inner::Classifier {
            rule: first,
            value: second,
        },
    })
}
