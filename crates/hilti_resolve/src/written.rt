//! Written types.
ghost use Rattle.std.specs.Prelude.{◌≡◌};
ghost use Rattle.hilti_scope.specs.Scopes.{means};
ghost use Rattle.hilti_resolve.specs.Answering.{Accepts, Gives, RefusesAs};
ghost use Rattle.hilti_resolve.specs.Refused.{type_refusal, known_refusal, deep_at, refusal_of};
ghost use Rattle.hilti_resolve.specs.Refused.{start_of as start_place};
ghost use Rattle.hilti_resolve.specs.Refused.{parametric_start as parametric_place};
ghost use Rattle.hilti_resolve.specs.Refused.{same_place as are_same_place};
ghost use Rattle.hilti_resolve.specs.Values.{value_of as value_told};

use crate::depth::{TOO_DEEP, capped_depth};
use crate::fault::TypeFault;
use crate::unknown::first_unknown;
use crate::value::value_of;
use hilti_base::{Place, Refusal};
use hilti_module::{Parametric, TypeText};
use hilti_scope::Scope;
use hilti_types::{TypeTable, ValueType};
use std::alloc::Global;

/// The code of a name that means nothing.
const UNKNOWN: u32 = 21;

/// The code of a type that breaks the rules of types.
const BAD_TYPE: u32 = 25;

/// The code of a type that nests too deep.
const TYPE_DEPTH: u32 = 26;

/// The type that a written type stands for. It is refused at its first fault: with code 21 at its first name that means
/// nothing, else with code 25 at the first part that breaks the rules of types; or with code 26 at its first token
/// where it nests deeper than 16 and no lesser code is met there. `table` has the types that are declared in front of
/// it.
pub fn read_type(
    alloc: Global,
    scope: &Scope<'_>,
    table: &TypeTable,
    text: &TypeText,
) -> Result<ValueType, Refusal>
    ensures kind { Gives result (value_told table.now (means scope.now) text.now) }
    ensures accepted { Accepts result (type_refusal table.now (means scope.now) text.now) }
    ensures refusal { RefusesAs result (type_refusal table.now (means scope.now) text.now) }
{
    let value = known_value(alloc, scope, table, text);
    if capped_depth(scope, table, text) == TOO_DEEP {
        return Err(deep_refusal(start_of(text), value));
    }
    value
}

/// The type that a written type stands for, however deep it nests.
fn known_value(
    alloc: Global,
    scope: &Scope<'_>,
    table: &TypeTable,
    text: &TypeText,
) -> Result<ValueType, Refusal>
    ensures kind { Gives result (value_told table.now (means scope.now) text.now) }
    ensures accepted { Accepts result (known_refusal table.now (means scope.now) text.now) }
    ensures refusal { RefusesAs result (known_refusal table.now (means scope.now) text.now) }
{
    if let Some(place) = first_unknown(scope, text) {
        return Err(Refusal::At {
            place,
            code: UNKNOWN,
        });
    }
    match value_of(alloc, scope, table, text) {
        Ok(kind) => Ok(kind),
        Err(TypeFault::Broken { place }) => Err(Refusal::At {
            place,
            code: BAD_TYPE,
        }),
        Err(TypeFault::NoMemory) => Err(Refusal::NoMemory),
    }
}

/// The refusal of a type that nests too deep and begins at `start`; `value` is what it stands for otherwise.
fn deep_refusal(start: Place, value: Result<ValueType, Refusal>) -> Refusal
    ensures { result ≡ deep_at start (refusal_of value) }
{
    match value {
        Ok(_) => Refusal::At {
            place: start,
            code: TYPE_DEPTH,
        },
        Err(Refusal::At { place, code }) => {
            if same_place(place, start) {
                return Refusal::At { place, code };
            }
            Refusal::At {
                place: start,
                code: TYPE_DEPTH,
            }
        }
        Err(Refusal::NoMemory) => Refusal::NoMemory,
    }
}

/// The place of the first token of a written type.
fn start_of(text: &TypeText) -> Place
    ensures { result ≡ start_place text.now }
{
    match text {
        TypeText::Plain { place, plain: _ } => *place,
        TypeText::Parametric(parametric) => parametric_start(parametric),
        TypeText::Named(name) => name.first.place,
    }
}

/// The same of a type with something between `<` and `>`.
fn parametric_start(parametric: &Parametric) -> Place
    ensures { result ≡ parametric_place parametric.now }
{
    match parametric {
        Parametric::Int { place, bits: _ } => *place,
        Parametric::Tuple { place, parts: _ } => *place,
        Parametric::Iterator { place, over: _ } => *place,
        Parametric::Ref { place, to: _ } => *place,
    }
}

fn same_place(a: Place, b: Place) -> bool
    ensures { result ≡ are_same_place a b }
{
    a.file == b.file && a.line == b.line && a.column == b.column
}
