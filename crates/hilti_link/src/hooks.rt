//! Hooks and their bodies.
ghost use Rattle.std.specs.Prelude.{◌≡◌, ◌+◌, ◌<◌, ◌^◌, ◌++◌, ℕ, List, IfOk, OnOk, length, map};
ghost use Rattle.std.specs.List.{slice_get};
ghost use Rattle.hilti_module.specs.declared.module.Module.{Module as AModule};
ghost use Rattle.hilti_scope.specs.Items.{placed, placed_in};
ghost use Rattle.hilti_scope.specs.Scopes.{means};
ghost use Rattle.hilti_resolve.specs.Same.{all_same};
ghost use Rattle.hilti_link.specs.InTurn.{Answers};
ghost use Rattle.hilti_link.specs.Hooks as spec;
ghost use Rattle.hilti_link.specs.Hooks.{hook_agrees};
ghost use Rattle.hilti_link.specs.Announcing.{shows};
ghost use Rattle.hilti_link.specs.Standings.{IsContext};

use crate::standing::Context;
use hilti_base::{NoMemory, Place, Refusal};
use hilti_module::{Item, Module, Name, Parameter, Parameters};
use hilti_resolve::{first_unknown, same_type};
use hilti_scope::{Meaning, Modules, Scope};
use std::alloc::Global;

const UNKNOWN: u32 = 21;

const HOOK_MISMATCH: u32 = 24;

/// A hook's declaration: its module, its place among all items, and its parameters.
#[derive(Clone, Copy, Debug)]
pub struct Announced<'a> {
    pub file: usize,
    pub here: usize,
    pub parameters: &'a Parameters,
}

/// The hooks of some modules, by their numbers.
pub fn announce(alloc: Global, modules: &Modules) -> Result<Vec<Announced<'_>>, NoMemory>
    requires { length (placed modules.now) < 2 ^ 31 }
    ensures { IfOk result (λ hooks. map shows hooks.items ≡ spec.announced modules.now) }
{
    let mut hooks = Vec::new(alloc);
    let mut here = 0;
    for (file, module) in modules.as_slice().iter().enumerate() {
        announce_module(&mut hooks, file, here, module)?;
        here += module.items.len();
    }
    Ok(hooks)
}

/// Adds the hooks of a module, whose first item is the one at `here`.
fn announce_module<'a>(
    hooks: &mut Vec<Announced<'a>>,
    file: usize,
    here: usize,
    next: &'a Module,
) -> Result<(), NoMemory>
    requires { here + length next.now.items < 2 ^ 31 }
    ensures { OnOk result (map shows hooks.new.items
        ≡ map shows hooks.old.items ++ spec.announced_from
        here (placed_in file next.now.items)) }
{
    for (at, item) in next.items.as_slice().iter().enumerate() {
        if let Item::Hook {
            name: _,
            parameters,
        } = item
        {
            hooks.push(Announced {
                file,
                here: here + at,
                parameters,
            })?;
        }
    }
    Ok(())
}

/// Whether the type of some parameter has a name that means nothing.
fn has_unknown(scope: &Scope<'_>, parameters: &[Parameter]) -> bool
    ensures { result ≡ spec.has_unknown (means scope.now) parameters.now }
{
    parameters.iter().any(|parameter| first_unknown(scope, &parameter.kind).is_some())
}

/// Whether the parameters of a body are as many as the hook's, and their types say the same in turn.
fn agrees(
    scope: &Scope<'_>,
    parameters: &[Parameter],
    hook_scope: &Scope<'_>,
    hook_parameters: &[Parameter],
) -> bool
    ensures { result ≡ all_same (spec.all_say (means scope.now) parameters.now)
        (spec.all_say (means hook_scope.now) hook_parameters.now) }
{
    if parameters.len() != hook_parameters.len() {
        return false;
    }
    for at in 0..parameters.len() {
        if !same_type(
            scope,
            &parameters[at].kind,
            hook_scope,
            &hook_parameters[at].kind,
        ) {
            return false;
        }
    }
    true
}

/// The hook of a body, by what the body's name means. The types of its parameters are seen in `scope`.
pub fn read_hook(
    alloc: Global,
    context: &Context<'_>,
    scope: &Scope<'_>,
    parameters: &[Parameter],
    place: Place,
    meaning: Meaning,
) -> Result<Option<u32>, Refusal>
    ensures hook { IfOk result (λ hook. hook ≡ spec.hook_number meaning) }
    ensures refusal { (modules : List AModule) → IsContext modules context.now
        → Answers result (spec.hook_meant modules (means scope.now) parameters.now place meaning) }
{
    match meaning {
        Meaning::Nothing => Err(Refusal::At {
            place,
            code: UNKNOWN,
        }),
        Meaning::Hook { n } => {
            if fits(alloc, context, n, scope, parameters) {
                Ok(Some(n))
            } else {
                Err(mismatch(place))
            }
        }
        Meaning::Local { slot: _ }
        | Meaning::Struct { n: _ }
        | Meaning::Enum { n: _ }
        | Meaning::Overlay { n: _ }
        | Meaning::Exception { n: _ }
        | Meaning::Global { n: _ }
        | Meaning::Function { n: _ } => Err(mismatch(place)),
    }
}

/// The refusal of a body that is none of a hook.
fn mismatch(place: Place) -> Refusal
    ensures { result ≡ Refusal.At place 24 }
{
    Refusal::At {
        place,
        code: HOOK_MISMATCH,
    }
}

/// Whether the parameters of a body are those of a hook, by its number, or aren't to be judged.
fn fits(
    alloc: Global,
    context: &Context<'_>,
    n: u32,
    scope: &Scope<'_>,
    parameters: &[Parameter],
) -> bool
    ensures { (modules : List AModule) → IsContext modules context.now
        → result ≡ hook_agrees modules (means scope.now) parameters.now
        (slice_get (spec.announced modules) n) }
{
    let Some(hook) = context.hooks.get(n as usize) else {
        return false;
    };
    let hook_scope = Scope::new(alloc, &context.declarations, hook.file, hook.here);
    are_hooks(scope, parameters, &hook_scope, hook.parameters.as_slice())
}

/// Whether the parameters of a body are those of its hook, or a name in a type of either means nothing.
fn are_hooks(
    scope: &Scope<'_>,
    parameters: &[Parameter],
    hook_scope: &Scope<'_>,
    hook_parameters: &[Parameter],
) -> bool
    ensures { result ≡ spec.are_hooks (means scope.now) parameters.now (means hook_scope.now)
        hook_parameters.now }
{
    has_unknown(scope, parameters)
        || has_unknown(hook_scope, hook_parameters)
        || agrees(scope, parameters, hook_scope, hook_parameters)
}
