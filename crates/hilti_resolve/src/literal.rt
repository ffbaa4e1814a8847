//! Literals where a value of a type is asked.
ghost use Rattle.std.specs.Prelude.{◌≡◌, ◌^◌, nat_lt, bytes_eq};
ghost use Rattle.std.specs.List.{list_any, slice_get};
ghost use Rattle.hilti_scope.specs.Scopes.{means};
ghost use Rattle.hilti_resolve.specs.Literals as literals;

use hilti_base::{Names, Place, Refusal};
use hilti_module::{Literal, Number, Seconds};
use hilti_scope::{Meaning, Scope};
use hilti_types::{Declared, TypeTable, ValueType};

/// The code of a name that means nothing.
const UNKNOWN: u32 = 21;

/// The code of a literal of another type than is asked.
const BAD_KIND: u32 = 30;

/// The code of a number, a time or an interval that doesn't fit.
const LITERAL_RANGE: u32 = 36;

/// The nanoseconds of a second.
const SECOND: u128 = 1_000_000_000;

/// The refusal of a literal where a value of this type is asked, with code 21, 30 or 36; `None` where it is one.
/// It takes no memory.
pub fn check_literal(
    scope: &Scope<'_>,
    table: &TypeTable,
    kind: &ValueType,
    literal: &Literal,
) -> Option<Refusal>
    ensures { result ≡ literals.literal_refusal table.now (means scope.now) kind.now literal.now }
{
    match literal {
        Literal::Number(number) => check_number(kind, number),
        Literal::Address { place, bits: _ } => unless(matches!(kind, ValueType::Addr), *place),
        Literal::Net {
            place,
            bits: _,
            length: _,
        } => unless(matches!(kind, ValueType::Net), *place),
        Literal::Port {
            place,
            number: _,
            is_udp: _,
        } => unless(matches!(kind, ValueType::Port), *place),
        Literal::Text { place, bytes: _ } => unless(matches!(kind, ValueType::Text), *place),
        Literal::Bytes { place, bytes: _ } => unless(matches!(kind, ValueType::Bytes), *place),
        Literal::True { place } | Literal::False { place } => {
            unless(matches!(kind, ValueType::Bool), *place)
        }
        Literal::Null { place } => unless(may_be_null(kind), *place),
        Literal::Constant { name, constant } => check_constant(
            table,
            kind,
            scope.meaning(name),
            name.first.place,
            constant.bytes.bytes(),
        ),
        Literal::Time { place, seconds } => {
            check_seconds(matches!(kind, ValueType::Time), *place, seconds)
        }
        Literal::Interval { place, seconds } => {
            check_seconds(matches!(kind, ValueType::Span), *place, seconds)
        }
    }
}

/// Code 30 where a literal isn't of the type that is asked.
fn unless(fits: bool, place: Place) -> Option<Refusal>
    ensures { result ≡ literals.of_kind fits place }
{
    if fits {
        None
    } else {
        Some(Refusal::At {
            place,
            code: BAD_KIND,
        })
    }
}

/// Whether Null is a value of this type.
fn may_be_null(kind: &ValueType) -> bool
    ensures { result ≡ literals.may_be_null kind.now }
{
    matches!(
        kind,
        ValueType::Callable | ValueType::Iter { .. } | ValueType::Ref { .. }
    )
}

/// The refusal of a number where a value of this type is asked.
fn check_number(kind: &ValueType, number: &Number) -> Option<Refusal>
    ensures { result ≡ literals.number_refusal kind.now number.now }
{
    let place = number.place;
    let ValueType::Int { bits } = kind else {
        return Some(Refusal::At {
            place,
            code: BAD_KIND,
        });
    };
    if fits_in(number.value, *bits) {
        None
    } else {
        Some(Refusal::At {
            place,
            code: LITERAL_RANGE,
        })
    }
}

/// Whether a number has at most this many bits.
fn fits_in(value: u64, bits: u8) -> bool
    ensures { result ≡ nat_lt value (2 ^ bits) }
{
    bits >= 64 || value >> bits == 0
}

/// The refusal of a time or an interval, where `fits` tells whether one is asked.
fn check_seconds(fits: bool, place: Place, seconds: &Seconds) -> Option<Refusal>
    ensures { result ≡ literals.seconds_refusal fits place seconds.now }
{
    if nanoseconds(seconds) <= u128::from(u64::MAX) {
        unless(fits, place)
    } else {
        Some(Refusal::At {
            place,
            code: LITERAL_RANGE,
        })
    }
}

/// The nanoseconds of a time or an interval.
pub fn nanoseconds(seconds: &Seconds) -> u128
    ensures { result ≡ literals.nanoseconds seconds.now }
{
    match seconds {
        Seconds::Whole { place: _, seconds } => u128::from(*seconds) * SECOND,
        Seconds::Parts {
            place: _,
            seconds,
            nanoseconds,
        } => u128::from(*seconds) * SECOND + u128::from(*nanoseconds),
    }
}

/// The refusal of the constant of a name that means this where a value of this type is asked. `place` is the name's.
fn check_constant(
    table: &TypeTable,
    kind: &ValueType,
    meaning: Meaning,
    place: Place,
    constant: &[u8],
) -> Option<Refusal>
    ensures { result ≡ literals.constant_refusal table.now kind.now meaning place constant.now }
{
    match meaning {
        Meaning::Nothing => Some(Refusal::At {
            place,
            code: UNKNOWN,
        }),
        Meaning::Enum { n } => unless(
            is_enum_of(n, kind) && has_constant(table, n, constant),
            place,
        ),
        _ => Some(Refusal::At {
            place,
            code: BAD_KIND,
        }),
    }
}

/// Whether a type is the enum at `n` of the table.
fn is_enum_of(n: u32, kind: &ValueType) -> bool
    ensures { result ≡ literals.is_enum_of n kind.now }
{
    match kind {
        ValueType::Enum { n: other } => n == *other,
        _ => false,
    }
}

/// Whether the type at `n` of the table is an enum with this constant.
fn has_constant(table: &TypeTable, n: u32, constant: &[u8]) -> bool
    ensures { result ≡ literals.has_constant (slice_get table.now n) constant.now }
{
    match table.get(n as usize) {
        Some(Declared::Enum { name: _, words }) => has_word(words, constant),
        _ => false,
    }
}

/// Whether this is one of the words.
fn has_word(words: &Names, word: &[u8]) -> bool
    ensures { result ≡ list_any (λ other. bytes_eq other word.now) words.now }
{
    words.as_slice().iter().any(|other| other.bytes() == word)
}
