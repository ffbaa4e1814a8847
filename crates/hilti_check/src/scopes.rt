//! What names mean in the bodies of functions and hooks.
ghost use Rattle.std.specs.Prelude.{◌++◌, IfOk, IsSome};
ghost use Rattle.hilti_declared.specs.Sites as sites;
ghost use Rattle.hilti_link.specs.TypedWords.{names_of};
ghost use Rattle.hilti_scope.specs.Scopes.{Sees};

use hilti_base::NoMemory;
use hilti_declared::number_at;
use hilti_link::{Linked, Site, hide_all};
use hilti_module::Parameter;
use hilti_scope::Scope;
use std::alloc::Global;

/// What names mean in the item at a site, behind its parameters and locals.
pub fn scope_at<'a>(
    alloc: Global,
    linked: &'a Linked,
    site: Site,
    parameters: &[Parameter],
    locals: &[Parameter],
) -> Result<Scope<'a>, NoMemory>
    requires { IsSome (sites.item_at linked.now.modules site) }
    ensures { IfOk result (λ scope. Sees linked.now.modules site.file
        (sites.number_at linked.now.modules site) (names_of (parameters.now ++ locals.now)) scope) }
{
    let here = number_at(linked.modules(), site);
    let mut scope = Scope::new(alloc, linked.declarations(), site.file, here);
    hide_all(&mut scope, parameters, 0)?;
    hide_all(&mut scope, locals, parameters.len())?;
    Ok(scope)
}
