//! Calls in progress.
ghost use Rattle.std.specs.Prelude.{◌<◌, length, IfSome, IfOk};
ghost use Rattle.hilti_base.specs.declared.names.FnId.{FnId as Id};
ghost use Rattle.hilti_machine.specs.Begun.{IsBegun};

use hilti_base::{FnId, NoMemory};
use hilti_openings::{Opened, open};
use hilti_program::Program;
use hilti_stack::{Position, Stack};
use hilti_tree::Call;
use std::alloc::Global;

/// A call in progress.
#[derive(Debug, Drop)]
pub struct Calling {
    /// Its own function.
    pub function: FnId,
    /// The own function where another runs first. It waits beside the stack and not on it: the handlers of its first
    /// block take nothing that the other raises.
    pub behind: Option<Opened>,
    /// Where the top of the stack is.
    pub top: Position,
    pub stack: Stack,
    /// How many instructions the call may still run.
    pub fuel: u64,
}

/// A call at its first instruction, or at that of the function that runs before it where there is one.
pub fn begin(
    alloc: Global,
    program: &Program,
    first: Option<FnId>,
    call: Call,
    fuel: u64,
) -> Result<Calling, NoMemory>
    requires own { call.function.n < length program.now.functions }
    requires first { IfSome first (λ (f : Id). f.n < length program.now.functions) }
    ensures { IfOk result (λ calling. IsBegun program.now first call fuel calling) }
{
    let Call { function, args } = call;
    let own = open(alloc, program, function, args.as_slice())?;
    let (opened, behind) = match first {
        Some(f) => (open(alloc, program, f, &[])?, Some(own)),
        None => (own, None),
    };
    let Opened { position, stack } = opened;
    Ok(Calling {
        function,
        behind,
        top: position,
        stack,
        fuel,
    })
}
