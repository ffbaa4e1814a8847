//! What follows where the top ended with an exception: frames end until one catches it.
ghost use Rattle.std.specs.Prelude.{◌≡◌, ◌↔◌, ◌<◌, [], length, None};
ghost use Rattle.std.specs.Prelude.{IfOk, IfErr, IfSome, IfNone, IsNone};
ghost use Rattle.std.specs.List.{All};
ghost use Rattle.hilti_heap.specs.Held.{all_held};
ghost use Rattle.hilti_heap.specs.Stands.{Fits};
ghost use Rattle.hilti_stack.specs.Frames.{Leaves};
ghost use Rattle.hilti_stack.specs.declared.head.Head.TheVariants as heads;
ghost use Rattle.hilti_acting.specs.Owned.{FitsWith, Fewer};
ghost use Rattle.hilti_acting.specs.Unwinding.{IsRaiserFrame, NearestIsFunction, Unwinds, Uncaught};

use crate::finishing::take_raise;
use crate::memory::Memory;
use crate::returning::let_go;
use hilti_program::Program;
use hilti_raise::handler;
use hilti_stack::{Head, Position, Stack};
use hilti_values::SharedBytes;

/// The top ends: its slots are let go, and the nearest caller, a function, is the top. `None` exactly where none waits.
fn leave_top(stack: &mut Stack, memory: &mut Memory) -> Option<Position>
    requires none_made { stack.old.made ≡ [] }
    requires fits { FitsWith memory.old.heap stack.old memory.old.globals.items None }
    requires caller { NearestIsFunction stack.old }
    ensures none { IsNone result ↔ (stack.old.below ≡ []) }
    ensures leaves { IfSome result (λ p. Leaves stack.old (heads.Function p) stack.new) }
    ensures fits { IfSome result
        (λ _p. FitsWith memory.new.heap stack.new memory.new.globals.items None) }
    ensures over { IfNone result
        (Fits memory.new.heap (λ s. all_held s memory.new.globals.items)) }
    ensures globals { memory.new.globals.items ≡ memory.old.globals.items }
    ensures fewer { Fewer memory.old.heap memory.new.heap }
{
    let_go(stack, &mut memory.heap);
    match stack.leave() {
        Some(Head::Function(p)) => Some(p),
        Some(_) => unreachable!(),
        None => None,
    }
}

/// The top ended with an exception that it doesn't catch. It ends, and so do its callers up to the first whose block
/// has a handler that catches the exception: the handler takes the text, and that caller is the top and goes on. Its
/// place comes back; the text, where no caller catches it. The slots of frames that ended are let go. It takes time
/// linear in those frames and their slots.
pub fn raised(
    program: &Program,
    stack: &mut Stack,
    memory: &mut Memory,
    exception: u32,
    text: SharedBytes,
) -> Result<Position, SharedBytes>
    requires there { exception < length program.now.exceptions }
    requires none_made { stack.old.made ≡ [] }
    requires fits { FitsWith memory.old.heap stack.old memory.old.globals.items None }
    requires callers { All (IsRaiserFrame program.now) stack.old.below }
    ensures on { IfOk result (λ p.
        Unwinds program.now exception text stack.old memory.old p stack.new memory.new) }
    ensures over { IfErr result (λ back. (back ≡ text)
        × Uncaught program.now exception text stack.old memory.old memory.new) }
{
    let _parts = program.parts();
    'frames: while let Some(p) = leave_top(stack, memory) {
        if let Some(handler) = handler(program, p.function, p.block, exception) {
            return Ok(take_raise(p, stack, memory, handler, text));
        }
    }
    Err(text)
}
