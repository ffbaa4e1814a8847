ghost use Rattle.std.specs.Prelude.{ℕ, List, [], Option, None, IfOk, OnOk};
ghost use Rattle.hilti_tree.specs.declared.call.Call.{Call};
ghost use Rattle.hilti_core.specs.declared.pieces.Segment.{Segment};
ghost use Rattle.hilti_core.specs.Core.{Running};
ghost use Rattle.hilti_core.specs.Body.{HasSegments, IsIdle, IsBusy, Starts, Gives};

use crate::pieces::Segment;
use hilti_base::{NoMemory, ThreadId};
use hilti_tree::Call;
use std::alloc::Global;

/// What virtual threads run. A virtual thread (`Vt`) is private to whoever has it, and runs one call after another,
/// each a segment at a time.
///
/// What a call does follows from the thread's number, the calls that the thread finished before, and the call: it is
/// `effect`, a list of segments. So two virtual threads that ran the same calls go on alike, whoever runs them.
pub trait Body {
    /// What a virtual thread keeps between its segments.
    type Vt: Drop + Send;

    /// What `effect`, `sound` and `runs` depend on, such as a program and its limits: plain data.
    type Data;

    /// The data of this body.
    ghost facts: { Self → Self.Data };

    /// The segments of a call on a thread, after the calls that the thread finished.
    ghost effect: { Self.Data → ℕ → List Call → Call → List Segment };

    /// The calls that may be started.
    ghost sound: { Self.Data → Call → Type 0 };

    /// What a virtual thread ran and runs: its number, the calls that it finished, and its call in progress with the
    /// number of the segments that were given.
    ghost runs: { Self.Data → Self.Vt → ℕ → List Call → Option Running → Type 0 };

    /// A virtual thread that ran nothing yet.
    fn fresh(&self, alloc: Global, thread: ThreadId) -> Result<Self::Vt, NoMemory>
        ensures { IfOk result (λ vt. runs (facts self.now) vt thread.n [] None) };

    /// Makes a sound call the call in progress of a virtual thread that has none. After `NoMemory` the virtual
    /// thread is only dropped.
    fn start(&self, vt: &mut Self::Vt, call: Call) -> Result<(), NoMemory>
        requires sound { sound (facts self.now) call }
        requires idle { IsIdle (runs (facts self.now) vt.old) }
        ensures { OnOk result
            (Starts (runs (facts self.now) vt.old) call (runs (facts self.now) vt.new)) };

    /// Runs the call in progress to the end of its next segment. After `NoMemory` the virtual thread is only dropped.
    fn segment(&self, vt: &mut Self::Vt) -> Result<Segment, NoMemory>
        requires { IsBusy (runs (facts self.now) vt.old) }
        ensures { IfOk result (λ segment. Gives (effect (facts self.now))
            (runs (facts self.now) vt.old) segment (runs (facts self.now) vt.new)) };

    /// A sound call after sound calls has at least one segment; all but the last end `Yielded`, and the last doesn't;
    /// each call that it sends is sound.
    ghost segments: { (about : Self.Data) → HasSegments (effect about) (sound about) };
}
