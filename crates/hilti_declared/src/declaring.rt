//! What modules declare.
ghost use Rattle.std.specs.Prelude.{◌≡◌, IfOk};
ghost use Rattle.hilti_declared.specs.Declaring.{declared_parts};

use crate::exceptions::make_exceptions;
use crate::functions::make_functions;
use crate::globals::make_globals;
use crate::hooks::make_hooks;
use hilti_base::NoMemory;
use hilti_link::{Linked, Tables};
use hilti_parts::{Blocks, Parts};
use std::alloc::Global;

/// The parts of the program that linked modules declare, each list in textual order. The functions and hook bodies get
/// these blocks, each its own in turn. It takes time linear in the modules, but for the order of hook bodies.
pub fn declare(alloc: Global, linked: Linked, blocks: Vec<Blocks>) -> Result<Parts, NoMemory>
    ensures { IfOk result (λ parts. parts ≡ declared_parts linked.modules blocks.items) }
{
    let (modules, declarations, tables) = linked.into_parts();
    let Tables {
        types,
        sites: _,
        globals,
        functions,
        hooks,
        exceptions,
    } = tables;
    let globals = make_globals(alloc, &modules, &declarations, &types, globals)?;
    let hooks = make_hooks(alloc, &modules, &functions, hooks)?;
    Ok(Parts {
        types,
        globals,
        functions: make_functions(alloc, functions, blocks)?,
        exceptions: make_exceptions(alloc, exceptions)?,
        hooks,
    })
}
