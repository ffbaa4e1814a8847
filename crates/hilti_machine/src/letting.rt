//! What a call lets go when it is over.
ghost use Rattle.std.specs.Prelude.{◌≡◌, ◌+◌, [], None};
ghost use Rattle.hilti_heap.specs.Held.{part, held, all_held};
ghost use Rattle.hilti_heap.specs.Stands.{Fits};
ghost use Rattle.hilti_acting.specs.Owned.{FitsWith};
ghost use Rattle.hilti_machine.specs.Steps.{FramesGone, AreFunctions};

use hilti_acting::{Memory, returned};
use hilti_stack::Stack;
use hilti_values::Value;

/// A result that nothing takes is let go.
pub fn let_result_go(memory: &mut Memory, value: Option<Value>)
    requires { Fits memory.old.heap (λ s.
        all_held s memory.old.globals.items + part (held s) value) }
    ensures { FramesGone memory.old memory.new }
{
    if let Some(value) = value {
        memory.heap.release_value(&value);
    }
}

/// The slots of all frames are let go.
pub fn let_frames_go(stack: &mut Stack, memory: &mut Memory)
    requires none_made { stack.old.made ≡ [] }
    requires fits { FitsWith memory.old.heap stack.old memory.old.globals.items None }
    requires functions { AreFunctions stack.old.below }
    ensures { FramesGone memory.old memory.new }
{
    'frames: while let Ok(_caller) = returned(stack, memory, None, None) {}
}
