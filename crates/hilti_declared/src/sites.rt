//! Items by the sites where they are declared.
ghost use Rattle.std.specs.Prelude.{◌≡◌, ◌≤◌, IfOk, IsSome};
ghost use Rattle.std.specs.Option.{option_copied, option_map};
ghost use Rattle.hilti_declared.specs.Sites as spec;
ghost use Rattle.hilti_link.specs.Linking.{modules_count};

use hilti_base::NoMemory;
use hilti_link::{Modules, Site};
use hilti_module::{Body, Item, Module, Parameter};

/// The item at a site.
pub fn item_at(modules: &Modules, site: Site) -> Option<&Item>
    ensures { option_copied result ≡ spec.item_at modules.now site }
{
    modules.get(site.file)?.items.get(site.item)
}

/// The parameters and the body of the function or hook body at a site, `None` where another item or nothing stands there.
pub fn body_at(modules: &[Module], site: Site) -> Option<(&[Parameter], &Body)>
    ensures { option_map (λ b. record { parameters = b.0.now; body = b.1.now }) result
        ≡ spec.bodied_at modules.now site }
{
    match modules.get(site.file)?.items.get(site.item)? {
        Item::Function {
            result: _,
            name: _,
            parameters,
            body,
        } => Some((parameters.as_slice(), body)),
        Item::HookBody {
            name: _,
            parameters,
            priority: _,
            body,
        } => Some((parameters.as_slice(), body)),
        _ => None,
    }
}

/// The number of the item at a site among the items of all modules.
pub fn number_at(modules: &Modules, site: Site) -> usize
    requires there { IsSome (spec.item_at modules.now site) }
    requires few { modules_count modules.now ≤ 16777216 }
    ensures { result ≡ spec.number_at modules.now site }
{
    let mut number = 0;
    for module in &modules.as_slice()[..site.file] {
        number += module.items.len();
    }
    number + site.item
}

/// A count or a place as it is held. More than 2^32 of anything take more memory than there is.
pub fn as_number(count: usize) -> Result<u32, NoMemory>
    ensures { IfOk result (λ number. number ≡ count) }
{
    if count <= u32::MAX as usize {
        Ok(count as u32)
    } else {
        Err(NoMemory)
    }
}
