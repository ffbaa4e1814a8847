//! Laws of frames: that a return undoes its call, and how much the values of a stack hold after each change, for any
//! measure of what one value holds, as how often it holds an object. They do nothing when they are called: a caller
//! learns what they ensure.

ghost use Rattle.std.specs.Prelude.{◌≡◌, ℕ};
ghost use Rattle.hilti_stack.specs.declared.head.Head.{Head};
ghost use Rattle.hilti_stack.specs.Frames.{Frames, no_frames, Undoes};
ghost use Rattle.hilti_stack.specs.Counts.{held, SetsCount, CallsCount, LeavesCount};
ghost use Rattle.hilti_values.specs.declared.value.Value.{Value};

/// A return undoes its call: where a callee is left, its caller has the head and the slots with which it called, over
/// the same callers.
pub fn leaving_undoes_entering()
    ensures { (s callee after : Frames) (its head : Head) → Undoes s its callee head after }
{}

/// An empty stack holds nothing, and a slot of the top holds what its value does.
pub fn slots_count()
    ensures new { (holds : Value → ℕ) → held holds no_frames ≡ 0 }
    ensures set { (holds : Value → ℕ) (s : Frames) → SetsCount holds s }
{}

/// What is made for a callee is held from then on, and no more of it once the callee has it.
pub fn calls_count()
    ensures { (holds : Value → ℕ) (s : Frames) → CallsCount holds s }
{}

/// Leaving a frame lets go of what its slots held and of what it made for a callee, and of nothing else.
pub fn leaving_counts()
    ensures { (holds : Value → ℕ) (s after : Frames) (head : Head)
        → LeavesCount holds s after head }
{}
