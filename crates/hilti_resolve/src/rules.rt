//! The rules of types, each over what its parts stand for; an error is the place of what breaks one. Nothing here takes
//! memory.
ghost use Rattle.std.specs.Prelude.{◌≡◌, ◌&&◌, nat_le, Ok};
ghost use Rattle.hilti_resolve.specs.Values as values;
ghost use Rattle.hilti_resolve.specs.Values.{HasForm, MayTake};

use crate::inner_value::InnerValue;
use hilti_base::Place;
use hilti_module::{Container, Double, InnerText, Parametric, PlainInner, PlainType, TypeText};
use hilti_scope::Meaning;
use hilti_types::{Inner, ValueType};

/// The type of one word.
pub fn plain_value(plain: PlainType) -> ValueType
    ensures { result ≡ values.plain_value plain }
{
    match plain {
        PlainType::Bool => ValueType::Bool,
        PlainType::Text => ValueType::Text,
        PlainType::Bytes => ValueType::Bytes,
        PlainType::Addr => ValueType::Addr,
        PlainType::Net => ValueType::Net,
        PlainType::Port => ValueType::Port,
        PlainType::Time => ValueType::Time,
        PlainType::Interval => ValueType::Span,
        PlainType::Callable => ValueType::Callable,
    }
}

/// What a word between `<` and `>` stands for.
pub fn inner_word(word: PlainInner) -> InnerValue
    ensures { result ≡ values.inner_word word }
{
    match word {
        PlainInner::Bytes => InnerValue::BytesWord,
        PlainInner::Timer => InnerValue::Object(Inner::Timer),
        PlainInner::Manager => InnerValue::Object(Inner::Manager),
    }
}

/// A name alone is a type where it means an enum.
pub fn named_value(meaning: Meaning, place: Place) -> Result<ValueType, Place>
    ensures { result ≡ values.named_value meaning place }
{
    match meaning {
        Meaning::Enum { n } => Ok(ValueType::Enum { n }),
        _ => Err(place),
    }
}

/// A name between `<` and `>` is an object's type where it means a struct.
pub fn named_inner(meaning: Meaning) -> InnerValue
    ensures { result ≡ values.named_inner meaning }
{
    match meaning {
        Meaning::Struct { n } => InnerValue::Object(Inner::Struct { n }),
        _ => InnerValue::NoObject,
    }
}

/// An `int` has 8, 16, 32 or 64 bits.
pub fn int_value(place: Place, bits: u64) -> Result<ValueType, Place>
    ensures { result ≡ values.int_value place bits }
{
    match bits {
        8 => Ok(ValueType::Int { bits: 8 }),
        16 => Ok(ValueType::Int { bits: 16 }),
        32 => Ok(ValueType::Int { bits: 32 }),
        64 => Ok(ValueType::Int { bits: 64 }),
        _ => Err(place),
    }
}

/// Whether a tuple may have so many parts.
pub fn is_tuple_length(count: usize) -> bool
    ensures { result ≡ (nat_le 1 count && nat_le count 8) }
{
    1 <= count && count <= 8
}

/// Whether a written type is a tuple.
fn is_tuple(text: &TypeText) -> bool
    ensures { HasForm values.read_of text.now result }
{
    match text {
        TypeText::Plain { place: _, plain: _ } => false,
        TypeText::Parametric(parametric) => is_tuple_text(parametric),
        TypeText::Named(_) => false,
    }
}

/// The same of a type with something between `<` and `>`.
fn is_tuple_text(parametric: &Parametric) -> bool
    ensures { HasForm values.parametric_read_of parametric.now result }
{
    match parametric {
        Parametric::Int { place: _, bits: _ } => false,
        Parametric::Tuple { place: _, parts: _ } => true,
        Parametric::Iterator { place: _, over: _ } => false,
        Parametric::Ref { place: _, to: _ } => false,
    }
}

/// Whether a container may have a first type of this form: a rule of a classifier is a tuple.
pub fn takes(double: Double, first: &TypeText) -> bool
    ensures { MayTake double first.now result }
{
    match double {
        Double::Map => true,
        Double::Classifier => is_tuple(first),
    }
}

/// Whether an iterator may go over what stands between `<` and `>`: a list, vector, set or map.
pub fn is_walked(inner: &InnerText) -> bool
    ensures { HasForm values.inner_read_of inner.now result }
{
    match inner {
        InnerText::Word { place: _, word: _ } => false,
        InnerText::Container(container) => is_walked_container(container),
        InnerText::Declared(_) => false,
    }
}

/// The same of a container.
fn is_walked_container(container: &Container) -> bool
    ensures { HasForm values.container_read_of container.now result }
{
    match container {
        Container::Single {
            place: _,
            single: _,
            item: _,
        } => true,
        Container::Double {
            place: _,
            double,
            first: _,
            second: _,
        } => *double == Double::Map,
    }
}

/// An iterator goes over an object.
pub fn iterator_value(place: Place, over: InnerValue) -> Result<ValueType, Place>
    ensures { result ≡ values.iterator_over place (Ok over) }
{
    match over {
        InnerValue::Object(object) => Ok(ValueType::Iter { over: object }),
        InnerValue::BytesWord | InnerValue::NoObject => Err(place),
    }
}

/// A reference goes to an object, and a reference to bytes is bytes.
pub fn reference_value(place: Place, to: InnerValue) -> Result<ValueType, Place>
    ensures { result ≡ values.reference_value place (Ok to) }
{
    match to {
        InnerValue::Object(object) => Ok(ValueType::Ref { to: object }),
        InnerValue::BytesWord => Ok(ValueType::Bytes),
        InnerValue::NoObject => Err(place),
    }
}
