//! Functions by their names.
ghost use Rattle.std.specs.Prelude.{◌≡◌, ◌<◌, ◌^◌, length, position, bytes_eq, IfSome};
ghost use Rattle.hilti_base.specs.declared.names.FnId.{FnId as Id};
ghost use Rattle.hilti_parts.specs.declared.parts.Function.{Function as Body};
ghost use Rattle.hilti_program.specs.Programs.{named as first_named};

use hilti_base::FnId;
use hilti_parts::{Function, Parts};

/// The place of the first function of a name.
fn place_named(functions: &[Function], name: &[u8]) -> Option<usize>
    ensures is { result ≡ position (λ (f : Body). bytes_eq f.name name.now) functions.now }
    ensures within { IfSome result (λ at. at < length functions.now) }
{
    functions
        .iter()
        .position(|function| function.name.bytes() == name)
}

/// The first function of a name; `None` exactly where there is none.
pub fn named(parts: &Parts, name: &[u8]) -> Option<FnId>
    requires { length parts.now.functions < 2 ^ 32 }
    ensures is { result ≡ first_named parts.now name.now }
    ensures within { IfSome result (λ (f : Id). f.n < length parts.now.functions) }
{
    match place_named(parts.functions.as_slice(), name) {
        Some(at) => Some(FnId { n: at as u32 }),
        None => None,
    }
}
