//! What threads begin with.
ghost use Rattle.std.specs.Prelude.{◌≡◌, map, IfOk};
ghost use Rattle.hilti_parts.specs.declared.parts.Global.{Global as Variable};
ghost use Rattle.hilti_effects.specs.Effect.{value_of_tree};

use crate::arguments::tree_value;
use hilti_base::NoMemory;
use hilti_parts::Global as Declared;
use hilti_values::Value;
use std::alloc::Global;

/// What the globals of a program hold at first, in their order.
pub fn first_globals(alloc: Global, declared: &[Declared]) -> Result<Vec<Value>, NoMemory>
    ensures { IfOk result (λ globals. globals.items
        ≡ map (λ (g : Variable). value_of_tree g.first) declared.now) }
{
    let mut globals = Vec::new(alloc);
    for global in declared {
        globals.push(tree_value(alloc, &global.first)?)?;
    }
    Ok(globals)
}
