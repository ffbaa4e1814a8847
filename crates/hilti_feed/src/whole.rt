//! A capture that is read to its end at once.
ghost use Rattle.std.specs.Prelude.{◌≡◌, ℕ, true, false, [], ◌∷◌, Err, IfOk, OnOk, MatchResult};
ghost use Rattle.std.specs.List.{All};
ghost use Rattle.hilti_outside.specs.Contents.{Grows, WhereTold, content};
ghost use Rattle.hilti_pcap.specs.Endings.{Bad};
ghost use Rattle.hilti_pcap.specs.Readings.{Reading};
ghost use Rattle.hilti_feed.specs.Calls.{IsCallOf};
ghost use Rattle.hilti_feed.specs.Faults.{HasCause, HasCauseIn};
ghost use Rattle.hilti_feed.specs.Fronts.{CausesFault};
ghost use Rattle.hilti_feed.specs.Known.{Related};
ghost use Rattle.hilti_feed.specs.Progress.{calls_left, ending_left, ending_after};
ghost use Rattle.hilti_feed.specs.Progress.{is_lost, is_over};
ghost use Rattle.hilti_feed.specs.Wholes.{ComeOf, IsAllUnlessLost, IsBadCapture, ending_of};

use crate::feed::{FeedFault, open_capture};
use crate::progress::{Progress, next_call};
use crate::tail::Outcome;
use hilti_base::{FnId, NoMemory};
use hilti_outside::Files;
use hilti_tree::Calls;
use std::alloc::Global;

/// How a capture that isn't bad ended.
#[derive(Clone, Copy, Debug, PartialEq, Eq)]
pub enum CaptureEnd {
    /// Behind its last record, or behind its header.
    Whole,
    /// Inside the record that begins at this place.
    Cut { at: u64 },
}

/// The calls of a capture in their order, and how it ended.
#[derive(Debug, Drop)]
pub struct CaptureCalls {
    pub calls: Calls,
    pub end: CaptureEnd,
}

/// All calls of a capture: one of `packet` for each packet, with its time and its bytes, and then one of `done`, where
/// there is such a function. The file is read in pieces, and nothing of it is kept but the calls. `Bad` comes with codes
/// 1 to 3 for the header, 4 for a record that is too long, and 5 where the capture is too large, and `ReadFault` where
/// the file isn't opened or a read fails, whichever is met first.
pub fn capture_calls<F: Files>(
    alloc: Global,
    files: &mut F,
    name: &[u8],
    packet: FnId,
    done: Option<FnId>,
) -> Result<CaptureCalls, FeedFault>
    ensures come { IfOk result (λ all. WhereTold (F.files files.old) (λ told.
        ComeOf (content told name.now) packet done all.calls (ending_of all.end))) }
    ensures passes { IfOk result (λ all. All (IsCallOf packet done) all.calls) }
    ensures bad { (at code : ℕ) → result ≡ Err (FeedFault.Bad at code) →
        WhereTold (F.files files.old) (λ told. IsBadCapture (content told name.now) at code) }
    ensures files { F.files files.new ≡ F.files files.old }
    ensures opened { Grows (F.opened files.old) (F.opened files.new) (name.now ∷ []) }
    ensures faults { CausesFault result (F.faults files.old) (F.faults files.new) }
{
    let capture = open_capture(alloc, files, name, packet, done)?;
    let mut progress = capture.progress;
    let calls = calls_to_end(alloc, files, &mut progress)?;
    let end = end_after(progress.outcome)?;
    Ok(CaptureCalls { calls, end })
}

/// The calls that are left of a capture, in their order.
#[tactic(auto, using(crate::proofs::Wholes::none_yet, crate::proofs::Wholes::one_more, crate::proofs::Wholes::all_now, crate::proofs::Wholes::passes_more, crate::proofs::Wholes::ending_on, crate::proofs::Wholes::not_faulted, crate::proofs::Wholes::cause_on, crate::proofs::Givings::ended_already))]
fn calls_to_end<F: Files>(
    alloc: Global,
    files: &mut F,
    progress: &mut Progress,
) -> Result<Calls, NoMemory>
    ensures calls { IfOk result (λ calls. Related
        (λ rest rest'. IsAllUnlessLost progress.new.outcome (calls_left progress.old rest) calls)
        (F.rest files.old) (F.rest files.new)) }
    ensures passes { IfOk result (All (IsCallOf progress.old.packet progress.old.done)) }
    ensures over { OnOk result (is_over progress.new.outcome ≡ true) }
    ensures ending { OnOk result (Related
        (λ rest rest'. ending_left progress.new rest' ≡ ending_left progress.old rest)
        (F.rest files.old) (F.rest files.new)) }
    ensures files { F.files files.new ≡ F.files files.old }
    ensures opened { F.opened files.new ≡ F.opened files.old }
    ensures faults { MatchResult result
        (λ _. HasCauseIn progress.old.outcome progress.new.outcome
        (F.faults files.old) (F.faults files.new))
        (λ _. F.faults files.new ≡ F.faults files.old) }
{
    let mut calls = Calls::new(alloc);
    'calls: while let Some(call) = next_call(alloc, files, progress)? {
        calls.push(call)?;
    }
    Ok(calls)
}

/// How a capture that was read to its end ended, or the fault that it ended by.
fn end_after(outcome: Outcome) -> Result<CaptureEnd, FeedFault>
    requires { is_over outcome ≡ true }
    ensures end { IfOk result (λ end. (reading : Reading)
        → ending_after outcome reading ≡ ending_of end) }
    ensures heard { OnOk result (is_lost outcome ≡ false) }
    ensures bad { (at code : ℕ) → result ≡ Err (FeedFault.Bad at code) → (reading : Reading)
        → ending_after outcome reading ≡ Bad at code }
    ensures faults { (before after : ℕ) → HasCause outcome before after
        → CausesFault result before after }
{
    match outcome {
        Outcome::Reading => unreachable!(),
        Outcome::Whole => Ok(CaptureEnd::Whole),
        Outcome::Cut { at } => Ok(CaptureEnd::Cut { at }),
        Outcome::Bad { at, code } => Err(FeedFault::Bad { at, code }),
        Outcome::ReadFault => Err(FeedFault::ReadFault),
    }
}
