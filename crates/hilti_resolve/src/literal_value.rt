//! The values of literals, and the types that they have by themselves.
ghost use Rattle.std.specs.Prelude.{◌≡◌, ◌<◌, ◌^◌, bytes_eq, None};
ghost use Rattle.std.specs.List.{position};
ghost use Rattle.std.specs.Option.{unwrap_or};
ghost use Rattle.hilti_scope.specs.Scopes.{means};
ghost use Rattle.hilti_resolve.specs.Answering.{Accepts, Makes, RefusesAs};
ghost use Rattle.hilti_resolve.specs.Literals.{literal_refusal, nanoseconds as nanoseconds_told};
ghost use Rattle.hilti_resolve.specs.LiteralValues as values;

use crate::literal::{check_literal, nanoseconds};
use hilti_base::{Blob, Names, NoMemory, Refusal};
use hilti_module::{Literal, Seconds};
use hilti_scope::{Meaning, Scope};
use hilti_tree::Tree;
use hilti_types::{Declared, TypeTable, ValueType};

/// The value of a literal where a value of this type is asked. It is refused with code 21, 30 or 36 where it is none.
pub fn read_literal(
    scope: &Scope<'_>,
    table: &TypeTable,
    kind: &ValueType,
    literal: &Literal,
) -> Result<Tree, Refusal>
    ensures value { Makes result (values.literal_value table.now (means scope.now) literal.now) }
    ensures accepted { Accepts result
        (literal_refusal table.now (means scope.now) kind.now literal.now) }
    ensures refusal { RefusesAs result
        (literal_refusal table.now (means scope.now) kind.now literal.now) }
{
    match check_literal(scope, table, kind, literal) {
        Some(refusal) => Err(refusal),
        None => Ok(literal_value(scope, table, kind, literal)?),
    }
}

/// The value of a literal that isn't refused.
#[tactic(auto, using(crate::proofs::Seconds::fitting))]
fn literal_value(
    scope: &Scope<'_>,
    table: &TypeTable,
    kind: &ValueType,
    literal: &Literal,
) -> Result<Tree, NoMemory>
    requires { literal_refusal table.now (means scope.now) kind.now literal.now ≡ None }
    ensures { Makes result (values.literal_value table.now (means scope.now) literal.now) }
{
    Ok(match literal {
        Literal::Number(number) => Tree::Int(number.value),
        Literal::Address { place: _, bits } => Tree::Addr(*bits),
        Literal::Net {
            place: _,
            bits,
            length,
        } => Tree::Net(*bits, *length),
        Literal::Port {
            place: _,
            number,
            is_udp,
        } => Tree::Port(*number, *is_udp),
        Literal::Text { place: _, bytes } => Tree::Text(bytes.copy()?),
        Literal::Bytes { place: _, bytes } => Tree::Bytes(bytes.copy()?),
        Literal::True { place: _ } => Tree::Bool(true),
        Literal::False { place: _ } => Tree::Bool(false),
        Literal::Null { place: _ } => Tree::Null,
        Literal::Constant { name, constant } => Tree::Pick(constant_place(
            table,
            scope.meaning(name),
            constant.bytes.bytes(),
        )?),
        Literal::Time { place: _, seconds } => Tree::Time(whole_nanoseconds(seconds)),
        Literal::Interval { place: _, seconds } => Tree::Span(whole_nanoseconds(seconds)),
    })
}

/// The nanoseconds of a time or an interval that fits.
fn whole_nanoseconds(seconds: &Seconds) -> u64
    requires { nanoseconds_told seconds.now < 2 ^ 64 }
    ensures { result ≡ nanoseconds_told seconds.now }
{
    nanoseconds(seconds) as u64
}

/// The place of a constant of the enum that a name means, and 0 where there is none.
fn constant_place(table: &TypeTable, meaning: Meaning, constant: &[u8]) -> Result<u32, NoMemory>
    ensures { Makes result (values.constant_place table.now meaning constant.now) }
{
    match meaning {
        Meaning::Enum { n } => match table.get(n as usize) {
            Some(Declared::Enum { name: _, words }) => place_of(words, constant),
            _ => Ok(0),
        },
        _ => Ok(0),
    }
}

/// The place of a word, and 0 where it isn't there. More than 2^32 words take more memory than there is.
fn place_of(words: &Names, word: &[u8]) -> Result<u32, NoMemory>
    ensures { Makes result (unwrap_or (position (λ other. bytes_eq other word.now) words.now) 0) }
{
    match place(words.as_slice(), word) {
        Some(at) => whole_place(at),
        None => Ok(0),
    }
}

/// A place as it is held.
fn whole_place(at: usize) -> Result<u32, NoMemory>
    ensures { Makes result at }
{
    if at <= u32::MAX as usize {
        Ok(at as u32)
    } else {
        Err(NoMemory)
    }
}

/// The place of a word.
fn place(words: &[Blob], word: &[u8]) -> Option<usize>
    ensures { result ≡ position (λ other. bytes_eq other word.now) words.now }
{
    words.iter().position(|other| other.bytes() == word)
}

/// The type of a literal by itself; a number and Null take theirs from where they stand, and a constant has none where its
/// name means no enum.
pub fn literal_type(scope: &Scope<'_>, literal: &Literal) -> Option<ValueType>
    ensures { result ≡ values.literal_type (means scope.now) literal.now }
{
    match literal {
        Literal::Number(_) | Literal::Null { place: _ } => None,
        Literal::Address { place: _, bits: _ } => Some(ValueType::Addr),
        Literal::Net {
            place: _,
            bits: _,
            length: _,
        } => Some(ValueType::Net),
        Literal::Port {
            place: _,
            number: _,
            is_udp: _,
        } => Some(ValueType::Port),
        Literal::Text { place: _, bytes: _ } => Some(ValueType::Text),
        Literal::Bytes { place: _, bytes: _ } => Some(ValueType::Bytes),
        Literal::True { place: _ } | Literal::False { place: _ } => Some(ValueType::Bool),
        Literal::Constant { name, constant: _ } => enum_of(scope.meaning(name)),
        Literal::Time {
            place: _,
            seconds: _,
        } => Some(ValueType::Time),
        Literal::Interval {
            place: _,
            seconds: _,
        } => Some(ValueType::Span),
    }
}

/// The enum that a name means.
fn enum_of(meaning: Meaning) -> Option<ValueType>
    ensures { result ≡ values.enum_of meaning }
{
    match meaning {
        Meaning::Enum { n } => Some(ValueType::Enum { n }),
        _ => None,
    }
}
