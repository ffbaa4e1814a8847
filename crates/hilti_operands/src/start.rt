//! The first tokens of operands, and the refusals of those of a wrong kind. Nothing here takes memory.
ghost use Rattle.std.specs.Prelude.{◌≡◌};
ghost use Rattle.hilti_scope.specs.Scopes.{means};
ghost use Rattle.hilti_resolve.specs.Containers.{container_start as container_place};
ghost use Rattle.hilti_resolve.specs.Literals.{nanoseconds as nanoseconds_told};
ghost use Rattle.hilti_resolve.specs.Refused.{parametric_start as parametric_place};
ghost use Rattle.hilti_operands.specs.Seen.{body_seen};
ghost use Rattle.hilti_operands.specs.Values as spec;

use crate::codes::{BAD_KIND, LITERAL_RANGE, UNKNOWN, refusal};
use crate::view::BodyView;
use hilti_base::{Place, Refusal};
use hilti_module::{Container, Literal, Parametric, Seconds, Simple};
use hilti_scope::{Meaning, Scope};

/// The nanoseconds of a second.
const SECOND: u128 = 1_000_000_000;

fn literal_start(literal: &Literal) -> Place
    ensures { result ≡ spec.literal_start literal.now }
{
    match literal {
        Literal::Number(number) => number.place,
        Literal::Address { place, .. }
        | Literal::Net { place, .. }
        | Literal::Port { place, .. }
        | Literal::Text { place, .. }
        | Literal::Bytes { place, .. }
        | Literal::True { place }
        | Literal::False { place }
        | Literal::Null { place }
        | Literal::Time { place, .. }
        | Literal::Interval { place, .. } => *place,
        Literal::Constant { name, .. } => name.first.place,
    }
}

fn parametric_start(parametric: &Parametric) -> Place
    ensures { result ≡ parametric_place parametric.now }
{
    match parametric {
        Parametric::Int { place, .. }
        | Parametric::Tuple { place, .. }
        | Parametric::Iterator { place, .. }
        | Parametric::Ref { place, .. } => *place,
    }
}

/// The first token of a container.
pub fn container_start(container: &Container) -> Place
    ensures { result ≡ container_place container.now }
{
    match container {
        Container::Single { place, .. } | Container::Double { place, .. } => *place,
    }
}

/// The first token of an operand.
pub fn simple_start(simple: &Simple) -> Place
    ensures { result ≡ spec.simple_start simple.now }
{
    match simple {
        Simple::Literal(literal) => literal_start(literal),
        Simple::Name(name) => name.first.place,
        Simple::Label { place, .. }
        | Simple::Any { place }
        | Simple::Plain { place, .. }
        | Simple::Timer { place }
        | Simple::Manager { place } => *place,
        Simple::Parametric(parametric) => parametric_start(parametric),
        Simple::Container(container) => container_start(container),
    }
}

fn name_code(meaning: Meaning) -> u32
    ensures { result ≡ spec.name_code meaning }
{
    match meaning {
        Meaning::Nothing => UNKNOWN,
        _ => BAD_KIND,
    }
}

/// The nanoseconds of a time or an interval.
fn nanoseconds(seconds: &Seconds) -> u128
    ensures { result ≡ nanoseconds_told seconds.now }
{
    match seconds {
        Seconds::Whole { place: _, seconds } => u128::from(*seconds) * SECOND,
        Seconds::Parts {
            place: _,
            seconds,
            nanoseconds,
        } => u128::from(*seconds) * SECOND + u128::from(*nanoseconds),
    }
}

fn seconds_code(seconds: &Seconds) -> u32
    ensures { result ≡ spec.seconds_code seconds.now }
{
    if nanoseconds(seconds) <= u128::from(u64::MAX) {
        BAD_KIND
    } else {
        LITERAL_RANGE
    }
}

fn literal_code(scope: &Scope<'_>, literal: &Literal) -> u32
    ensures { result ≡ spec.literal_code (means scope.now) literal.now }
{
    match literal {
        Literal::Constant { name, .. } => name_code(scope.meaning(name)),
        Literal::Time { seconds, .. } | Literal::Interval { seconds, .. } => seconds_code(seconds),
        _ => BAD_KIND,
    }
}

fn wrong_code(scope: &Scope<'_>, simple: &Simple) -> u32
    ensures { result ≡ spec.wrong_code (means scope.now) simple.now }
{
    match simple {
        Simple::Name(name) => name_code(scope.meaning(name)),
        Simple::Literal(literal) => literal_code(scope, literal),
        _ => BAD_KIND,
    }
}

/// The refusal of an operand of a wrong kind, at its first token: code 21 where that is a name that means nothing, 36
/// where it is a time or an interval that doesn't fit, else 30.
pub fn wrong(body: &BodyView<'_>, simple: &Simple) -> Refusal
    ensures { result ≡ spec.wrong (body_seen body.now) simple.now }
{
    refusal(simple_start(simple), wrong_code(body.scope, simple))
}
