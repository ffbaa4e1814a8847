//! The functions of a program.
ghost use Rattle.std.specs.Prelude.{◌≡◌, IfOk};
ghost use Rattle.hilti_declared.specs.Declaring as spec;

use crate::sites::as_number;
use crate::turns::next_of;
use hilti_base::NoMemory;
use hilti_link::{LinkedFunction, LinkedFunctions};
use hilti_parts::{Blocks, Function, Functions};
use std::alloc::Global;
use std::collections::VecDeque;

/// A function or a hook body with its blocks.
fn make_function(declared: LinkedFunction, blocks: Blocks) -> Result<Function, NoMemory>
    ensures { IfOk result (λ function. function ≡ spec.function_of declared blocks) }
{
    Ok(Function {
        name: declared.name,
        params: as_number(declared.parameters)?,
        slots: declared.slots,
        result: declared.result,
        blocks,
    })
}

/// The functions and hook bodies in their order, with the blocks of each in turn.
pub fn make_functions(
    alloc: Global,
    declared: LinkedFunctions,
    blocks: Vec<Blocks>,
) -> Result<Functions, NoMemory>
    ensures { IfOk result (λ functions. functions ≡ spec.functions_with declared blocks.items) }
{
    let mut blocks = VecDeque::from_vec(blocks);
    let mut functions = Functions::new(alloc);
    for function in declared.into_vec() {
        let own = next_of(alloc, &mut blocks);
        functions.push(make_function(function, own)?)?;
    }
    Ok(functions)
}
