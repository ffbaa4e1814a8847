//! Containers that are made.
ghost use Rattle.std.specs.Prelude.{◌≡◌};
ghost use Rattle.hilti_scope.specs.Scopes.{means};
ghost use Rattle.hilti_resolve.specs.Answering.{Accepts, Gives, RefusesAs};
ghost use Rattle.hilti_resolve.specs.Containers.{container_refusal as refusal_of};
ghost use Rattle.hilti_resolve.specs.Containers.{container_start as start_place};
ghost use Rattle.hilti_resolve.specs.Values.{container_value_of};

use crate::depth::{TOO_DEEP, container_depth};
use crate::fault::TypeFault;
use crate::unknown::unknown_in_container;
use crate::value::container_value;
use hilti_base::{Place, Refusal};
use hilti_module::Container;
use hilti_scope::Scope;
use hilti_types::{Inner, TypeTable};
use std::alloc::Global;

/// The code of a name that means nothing.
const UNKNOWN: u32 = 21;

/// The code of an operand of another kind than is asked.
const BAD_KIND: u32 = 30;

/// The type of the object that a written container stands for, where one is to be made of it. It is refused with code 30
/// at its first token where it nests deeper than 16, else with code 21 at its first name that means nothing, else with
/// code 30 at its first token where it breaks the rules of types.
pub fn read_container(
    alloc: Global,
    scope: &Scope<'_>,
    table: &TypeTable,
    container: &Container,
) -> Result<Inner, Refusal>
    ensures object { Gives result (container_value_of table.now (means scope.now) container.now) }
    ensures accepted { Accepts result (refusal_of table.now (means scope.now) container.now) }
    ensures refusal { RefusesAs result (refusal_of table.now (means scope.now) container.now) }
{
    let start = start_of(container);
    if container_depth(scope, table, container) == TOO_DEEP {
        return Err(Refusal::At {
            place: start,
            code: BAD_KIND,
        });
    }
    if let Some(place) = unknown_in_container(scope, container) {
        return Err(Refusal::At {
            place,
            code: UNKNOWN,
        });
    }
    match container_value(alloc, scope, table, container) {
        Ok(object) => Ok(object),
        Err(TypeFault::Broken { place: _ }) => Err(Refusal::At {
            place: start,
            code: BAD_KIND,
        }),
        Err(TypeFault::NoMemory) => Err(Refusal::NoMemory),
    }
}

/// The place of the first token of a container.
fn start_of(container: &Container) -> Place
    ensures { result ≡ start_place container.now }
{
    match container {
        Container::Single {
            place,
            single: _,
            item: _,
        } => *place,
        Container::Double {
            place,
            double: _,
            first: _,
            second: _,
        } => *place,
    }
}
