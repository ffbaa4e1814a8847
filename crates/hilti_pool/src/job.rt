ghost use Rattle.std.specs.Prelude.{◌≡◌, ℕ, None, IfOk, OnOk, IfSome, MatchOption};
ghost use Rattle.hilti_core.specs.Core.{Core};
ghost use Rattle.hilti_core.specs.Body.{IsIdle, Starts};
ghost use Rattle.hilti_pool.specs.Work.{IsJob, IsDone, CanRun, IsHeld};

use hilti_base::{NoMemory, ThreadId};
use hilti_core::{Body, Segment};
use hilti_tree::Call;
use std::alloc::Global;

/// A virtual thread that a worker took, to run one segment.
#[derive(Drop)]
pub struct Job<B: Body> {
    pub thread: ThreadId,
    /// The virtual thread, or `None` for a thread that never ran.
    pub vt: Option<B::Vt>,
    /// The call to start, or `None` where the call in progress goes on.
    pub next: Option<Call>,
}

/// What a worker that asks for work is told.
#[derive(Drop)]
pub enum Taken<B: Body> {
    Job(Job<B>),
    /// No thread is ready, but one may become so.
    Nothing,
    /// All calls that were fed ended, and no more will be fed.
    Finished,
    /// Calls wait, but as many started as may.
    Limit,
    /// The pool was given up.
    Broken,
}

impl<B: Body> Job<B> {
    /// Runs one segment: what a worker then gives back is what the pool asks of it, in each core where the worker has
    /// this job. Without memory the virtual thread is dropped.
    pub fn run(self, alloc: Global, body: &B) -> Result<(B::Vt, Segment), NoMemory>
        requires { CanRun (B.sound (B.facts body.now)) (B.runs (B.facts body.now))
            self.thread.n self.vt self.next }
        ensures { IfOk result (λ done. (worker : ℕ) (c : Core)
            → IsJob (B.sound (B.facts body.now)) (B.runs (B.facts body.now))
            worker self.thread.n self.vt self.next c
            → IsDone (B.effect (B.facts body.now)) (B.runs (B.facts body.now))
            worker self.thread.n done.0 done.1 c) }
    {
        let Job { thread, vt, next } = self;
        let mut vt = at_hand(alloc, body, thread, vt)?;
        start_next(body, &mut vt, next)?;
        let segment = body.segment(&mut vt)?;
        Ok((vt, segment))
    }
}

/// The virtual thread of a job, made where the thread never ran.
fn at_hand<B: Body>(
    alloc: Global,
    body: &B,
    thread: ThreadId,
    vt: Option<B::Vt>,
) -> Result<B::Vt, NoMemory>
    ensures { IfOk result (IsHeld (B.runs (B.facts body.now)) thread.n vt) }
{
    match vt {
        Some(vt) => Ok(vt),
        None => {
            let vt = body.fresh(alloc, thread)?;
            Ok(vt)
        }
    }
}

/// Starts the call of a job, if it has one.
fn start_next<B: Body>(body: &B, vt: &mut B::Vt, next: Option<Call>) -> Result<(), NoMemory>
    requires sound { IfSome next (B.sound (B.facts body.now)) }
    requires idle { IfSome next (λ _. IsIdle (B.runs (B.facts body.now) vt.old)) }
    ensures { OnOk result (MatchOption next (vt.new ≡ vt.old) (λ call.
        Starts (B.runs (B.facts body.now) vt.old) call (B.runs (B.facts body.now) vt.new))) }
{
    if let Some(call) = next {
        body.start(vt, call)?;
    }
    Ok(())
}
