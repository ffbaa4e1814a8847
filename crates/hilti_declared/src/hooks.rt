//! The hooks of a program, with their bodies in the order of running.
ghost use Rattle.std.specs.Prelude.{◌≡◌, ◌++◌, ◌∷◌, [], ℕ, List, IfOk, OnOk, length};
ghost use Rattle.hilti_declared.specs.declared.hooks.HookBody.{HookBody as AnyBody};
ghost use Rattle.hilti_declared.specs.Hooks as spec;
ghost use Rattle.hilti_declared.specs.Sites as sites;

use crate::sites::{as_number, item_at};
use crate::turns::next_of;
use hilti_base::{FnId, NoMemory};
use hilti_link::{LinkedFunctions, LinkedHooks, Modules, Site};
use hilti_module::{Item, Number};
use hilti_parts::{FnIds, Hook, Hooks};
use std::alloc::Global;
use std::collections::VecDeque;

/// A body of a hook: the hook's number, the priority that the body is written with, and the body's own number.
#[derive(Clone, Copy, Debug)]
pub struct HookBody {
    pub hook: u32,
    pub priority: u64,
    pub function: FnId,
}

/// The priority that a hook body is written with, 0 without one.
fn priority_at(modules: &Modules, site: Site) -> u64
    ensures { result ≡ spec.priority_in (sites.item_at modules.now site) }
{
    match item_at(modules, site) {
        Some(
            Item::HookBody {
                name: _,
                parameters: _,
                priority: Some(Number { place: _, value }),
                body: _,
            },
        ) => *value,
        _ => 0,
    }
}

/// The hook bodies among some functions, in textual order.
fn hook_bodies(
    alloc: Global,
    modules: &Modules,
    functions: &LinkedFunctions,
) -> Result<Vec<HookBody>, NoMemory>
    ensures { IfOk result (λ bodies. bodies.items ≡ spec.hook_bodies modules.now functions.now) }
{
    let mut bodies = Vec::new(alloc);
    for (n, function) in functions.as_slice().iter().enumerate() {
        if let Some(hook) = function.hook {
            bodies.push(HookBody {
                hook,
                priority: priority_at(modules, function.site),
                function: FnId { n: as_number(n)? },
            })?;
        }
    }
    Ok(bodies)
}

/// Puts bodies by falling priority, those of one priority as they stood.
fn sort_bodies(bodies: &mut Vec<HookBody>) -> Result<(), NoMemory>
    ensures { OnOk result (bodies.new.items ≡ spec.in_order bodies.old.items) }
{
    bodies.sort_by(|a, b| b.priority.cmp(&a.priority))?;
    Ok(())
}

/// An empty list for each of so many hooks.
fn empty_lists(alloc: Global, count: usize) -> Result<Vec<FnIds>, NoMemory>
    ensures { IfOk result (λ lists. lists.items ≡ spec.lists_from [] 0 count) }
{
    let mut lists = Vec::new(alloc);
    for _i in 0..count {
        lists.push(FnIds::new(alloc))?;
    }
    Ok(lists)
}

/// Adds a body to the list of its hook.
fn add_body(lists: &mut Vec<FnIds>, body: HookBody) -> Result<(), NoMemory>
    ensures { OnOk result ((before : List AnyBody) (count : ℕ)
        → lists.old.items ≡ spec.lists_from before 0 count
        → lists.new.items ≡ spec.lists_from (before ++ body ∷ []) 0 count) }
{
    let hook = body.hook as usize;
    if hook < lists.len() {
        lists[hook].push(body.function)?;
    }
    Ok(())
}

/// The functions of the bodies of each of so many hooks, in the order of the bodies.
fn lists_of(alloc: Global, bodies: &[HookBody], count: usize) -> Result<Vec<FnIds>, NoMemory>
    ensures { IfOk result (λ lists. lists.items ≡ spec.lists_from bodies.now 0 count) }
{
    let mut lists = empty_lists(alloc, count)?;
    for body in bodies {
        add_body(&mut lists, *body)?;
    }
    Ok(lists)
}

/// Hooks in their order, with the lists of their bodies.
fn with_bodies(alloc: Global, declared: LinkedHooks, lists: Vec<FnIds>) -> Result<Hooks, NoMemory>
    ensures { IfOk result (λ hooks. (bodies : List AnyBody)
        → lists.items ≡ spec.lists_from (spec.in_order bodies) 0 (length declared)
        → hooks ≡ spec.hooks_from bodies 0 declared) }
{
    let mut lists = VecDeque::from_vec(lists);
    let mut hooks = Hooks::new(alloc);
    for hook in declared.into_vec() {
        let bodies = next_of(alloc, &mut lists);
        hooks.push(Hook {
            name: hook.name,
            params: hook.parameters,
            bodies,
        })?;
    }
    Ok(hooks)
}

/// The hooks, in their order.
pub fn make_hooks(
    alloc: Global,
    modules: &Modules,
    functions: &LinkedFunctions,
    declared: LinkedHooks,
) -> Result<Hooks, NoMemory>
    ensures { IfOk result (λ hooks. hooks
        ≡ spec.hooks_from (spec.hook_bodies modules.now functions.now) 0 declared) }
{
    let mut bodies = hook_bodies(alloc, modules, functions)?;
    sort_bodies(&mut bodies)?;
    let lists = lists_of(alloc, bodies.as_slice(), declared.len())?;
    with_bodies(alloc, declared, lists)
}
