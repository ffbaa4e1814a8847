//! Where calls begin.
ghost use Rattle.std.specs.Prelude.{◌≡◌, ◌++◌, ◌<◌, map, length, slice_get, drop, IfOk, OnOk};
ghost use Rattle.hilti_values.specs.First.{first_of};
ghost use Rattle.hilti_stack.specs.Frames.{with_made};
ghost use Rattle.hilti_effects.specs.Acting.{locals_in};
ghost use Rattle.hilti_effects.specs.Effect.{value_of_tree};
ghost use Rattle.hilti_openings.specs.Openings.{Opens};

use crate::arguments::tree_value;
use hilti_base::{FnId, NoMemory};
use hilti_parts::Function;
use hilti_program::Program;
use hilti_stack::{Position, Stack};
use hilti_tree::Tree;
use hilti_types::ValueType;
use hilti_values::first_value;
use std::alloc::Global;

/// A function that begins: where it is, and the stack that it is alone on.
#[derive(Debug, Drop)]
pub struct Opened {
    pub position: Position,
    pub stack: Stack,
}

/// Makes slots of arguments.
fn make_arguments(alloc: Global, stack: &mut Stack, arguments: &[Tree]) -> Result<(), NoMemory>
    ensures { OnOk result
        (stack.new ≡ with_made stack.old (stack.old.made ++ map value_of_tree arguments.now)) }
{
    for tree in arguments {
        stack.make(tree_value(alloc, tree)?)?;
    }
    Ok(())
}

/// Makes slots of variables of these types, as they are at first.
fn make_firsts(alloc: Global, stack: &mut Stack, types: &[ValueType]) -> Result<(), NoMemory>
    ensures { OnOk result
        (stack.new ≡ with_made stack.old (stack.old.made ++ map first_of types.now)) }
{
    for kind in types {
        stack.make(first_value(alloc, kind)?)?;
    }
    Ok(())
}

/// The types of the slots behind the parameters.
fn local_types(function: &Function) -> &[ValueType]
    ensures { result.now ≡ drop function.now.params function.now.slots }
{
    let slots = function.slots.as_slice();
    let params = function.params as usize;
    if params < slots.len() {
        &slots[params..]
    } else {
        &[]
    }
}

/// Makes the slots of a function that stand behind its parameters, as they are at first.
pub fn make_locals(
    alloc: Global,
    program: &Program,
    stack: &mut Stack,
    f: FnId,
) -> Result<(), NoMemory>
    requires { f.n < length program.now.functions }
    ensures { OnOk result (stack.new ≡ with_made stack.old
        (stack.old.made ++ locals_in (slice_get program.now.functions f.n))) }
{
    make_firsts(alloc, stack, local_types(program.function(f)))?;
    Ok(())
}

/// Makes the slots of a function: its arguments, and then its own variables.
fn make_slots(
    alloc: Global,
    program: &Program,
    stack: &mut Stack,
    f: FnId,
    arguments: &[Tree],
) -> Result<(), NoMemory>
    requires { f.n < length program.now.functions }
    ensures { OnOk result (stack.new
        ≡ with_made stack.old (stack.old.made
        ++ map value_of_tree arguments.now ++ locals_in (slice_get program.now.functions f.n))) }
{
    make_arguments(alloc, stack, arguments)?;
    make_locals(alloc, program, stack, f)?;
    Ok(())
}

/// A function that is called with these arguments, at its first instruction.
pub fn open(
    alloc: Global,
    program: &Program,
    function: FnId,
    arguments: &[Tree],
) -> Result<Opened, NoMemory>
    requires { function.n < length program.now.functions }
    ensures { IfOk result (λ opened. Opens program.now function arguments.now opened) }
{
    let mut stack = Stack::new(alloc);
    make_slots(alloc, program, &mut stack, function, arguments)?;
    stack.begin();
    let position = Position {
        function,
        block: 0,
        at: 0,
        target: None,
    };
    Ok(Opened { position, stack })
}
