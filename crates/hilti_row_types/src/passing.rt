//! Types that rows name, and what rows ask of types. Nothing here takes memory.
ghost use Rattle.std.specs.Prelude.{◌≡◌, Some};
ghost use Rattle.hilti_types.specs.declared.value_type.ValueType.{out-ValueType};
ghost use Rattle.hilti_typing.specs.Types as spec;

use crate::parts::object_of;
use hilti_table::{Family, Plain, Test};
use hilti_types::{Inner, TypeTable, ValueType, is_key, is_sendable};

/// A type that rows name.
pub fn plain_type(plain: Plain) -> ValueType
    ensures { result ≡ spec.plain_type plain }
{
    match plain {
        Plain::Bool => ValueType::Bool,
        Plain::Int8 => ValueType::Int { bits: 8 },
        Plain::Int16 => ValueType::Int { bits: 16 },
        Plain::Int64 => ValueType::Int { bits: 64 },
        Plain::Text => ValueType::Text,
        Plain::Bytes => ValueType::Bytes,
        Plain::Addr => ValueType::Addr,
        Plain::Net => ValueType::Net,
        Plain::Port => ValueType::Port,
        Plain::Time => ValueType::Time,
        Plain::Span => ValueType::Span,
        Plain::Callable => ValueType::Callable,
        Plain::Timer => ValueType::Ref { to: Inner::Timer },
        Plain::Manager => ValueType::Ref { to: Inner::Manager },
    }
}

/// Whether an object is of a family.
fn in_family(family: Family, object: &Inner) -> bool
    ensures { result ≡ spec.is_object family (Some object.now) }
{
    match object {
        Inner::Timer | Inner::Manager => false,
        Inner::Struct { n: _ } => matches!(family, Family::Struct),
        Inner::List { item: _ } => matches!(family, Family::List | Family::Container),
        Inner::Vector { item: _ } => matches!(family, Family::Vector | Family::Container),
        Inner::Set { item: _ } => matches!(family, Family::Set | Family::Container),
        Inner::Map { key: _, value: _ } => matches!(family, Family::Map | Family::Container),
        Inner::Classifier { rule: _, value: _ } => matches!(family, Family::Classifier),
    }
}

/// Whether values of a type may be Null: references, iterators and callables.
pub fn may_be_null(t: &ValueType) -> bool
    ensures { result ≡ spec.may_be_null t.now }
{
    matches!(
        t,
        ValueType::Callable | ValueType::Iter { over: _ } | ValueType::Ref { to: _ }
    )
}

/// Whether a type is one of whole numbers.
pub fn is_int(t: &ValueType) -> bool
    ensures { result ≡ spec.is_int (out-ValueType t.now) }
{
    matches!(t, ValueType::Int { bits: _ })
}

fn is_tuple(t: &ValueType) -> bool
    ensures { result ≡ spec.is_tuple (out-ValueType t.now) }
{
    matches!(t, ValueType::Tuple { parts: _ })
}

fn is_iterator(t: &ValueType) -> bool
    ensures { result ≡ spec.is_iterator (out-ValueType t.now) }
{
    matches!(t, ValueType::Iter { over: _ })
}

/// Whether a type is one of references to objects of a family.
fn is_reference(family: Family, t: &ValueType) -> bool
    ensures { result ≡ spec.is_object family (spec.object_of t.now) }
{
    match object_of(t) {
        Some(object) => in_family(family, object),
        None => false,
    }
}

/// Whether a type passes a test.
pub fn passes(types: &TypeTable, test: Test, t: &ValueType) -> bool
    ensures { result ≡ spec.passes types.now test t.now }
{
    match test {
        Test::Any => true,
        Test::Key => is_key(types, t),
        Test::Sendable => is_sendable(types, t),
        Test::Nullable => may_be_null(t),
        Test::Int => is_int(t),
        Test::Tuple => is_tuple(t),
        Test::Iterator => is_iterator(t),
        Test::Object(family) => is_reference(family, t),
    }
}

/// Whether `new` makes objects of a type: of any but timers.
pub fn can_be_made(object: &Inner) -> bool
    ensures { result ≡ spec.can_be_made object.now }
{
    !matches!(object, Inner::Timer)
}
