ghost use Rattle.std.specs.Prelude.{◌≡◌, ◌≢◌, ◌<◌, ◌∷◌, true, IfOk, OnOk, OnErr};
ghost use Rattle.std.specs.Prelude.{IfSome, IfNone, OnSome};
ghost use Rattle.std.specs.Prelude.{MatchResult};
ghost use Rattle.hilti_feed.specs.Known.{Related};
ghost use Rattle.hilti_feed.specs.Calls.{packet_call, IsCallOf};
ghost use Rattle.hilti_feed.specs.Faults.{HasCause, HasCauseIn};
ghost use Rattle.hilti_feed.specs.Progress.{calls_left, calls_weight, ending_left, is_over};
ghost use Rattle.hilti_feed.specs.Progress.{clean, owed_after};
ghost use Rattle.hilti_feed.specs.Progress.{Skipped, SameMaking};
ghost use Rattle.hilti_feed.specs.Progress.{IsOverBy, IsSkippedBy, IsClosing, IsClosed, IsEnded};
ghost use Rattle.hilti_feed.specs.Tails.{Agrees, reading_of};

use crate::pieces::{Found, next_packet};
use crate::tail::{Outcome, Tail};
use hilti_base::{FnId, NoMemory};
use hilti_outside::Files;
use hilti_pcap::Packet;
use hilti_tree::{Call, Forest, Tree};
use std::alloc::Global;

/// How far the calls of a capture were given.
#[derive(Debug, Drop)]
pub struct Progress {
    pub packet: FnId,
    pub done: Option<FnId>,
    /// Whether the call at the end was given.
    pub done_given: bool,
    pub tail: Tail,
    pub outcome: Outcome,
}

/// The next call; `None` where the capture was read to its end, or a read failed.
#[tactic(auto, using(crate::proofs::Givings::packet_now, crate::proofs::Givings::packet_ending, crate::proofs::Givings::closing_now, crate::proofs::Givings::closing_ending, crate::proofs::Givings::closed_now, crate::proofs::Givings::closed_ending, crate::proofs::Weights::packet_lighter, crate::proofs::Weights::closing_lighter, crate::proofs::Givings::over_already, crate::proofs::Givings::ended_already))]
pub fn next_call<F: Files>(
    alloc: Global,
    files: &mut F,
    progress: &mut Progress,
) -> Result<Option<Call>, NoMemory>
    ensures call { IfOk result (λ next. IfSome next (λ call. Related
        (λ rest rest'. calls_left progress.old rest ≡ call ∷ calls_left progress.new rest')
        (F.rest files.old) (F.rest files.new))) }
    ensures passes { IfOk result (λ next. IfSome next
        (IsCallOf progress.old.packet progress.old.done)) }
    ensures goes_on { IfOk result (λ next. OnSome next
        (progress.new.outcome ≡ progress.old.outcome)) }
    ensures none { IfOk result (λ next. IfNone next (Related
        (λ rest rest'. IsOverBy progress.old.outcome progress.new.outcome
        (calls_left progress.old rest) (calls_left progress.new rest'))
        (F.rest files.old) (F.rest files.new))) }
    ensures over { IfOk result (λ next. IfNone next (is_over progress.new.outcome ≡ true)) }
    ensures lighter { IfOk result (λ next. OnSome next
        (calls_weight progress.new < calls_weight progress.old)) }
    ensures no_memory { OnErr result (progress.new.outcome ≡ progress.old.outcome) }
    ensures ending { OnOk result (Related
        (λ rest rest'. ending_left progress.new rest' ≡ ending_left progress.old rest)
        (F.rest files.old) (F.rest files.new)) }
    ensures made { SameMaking progress.old progress.new }
    ensures files { F.files files.new ≡ F.files files.old }
    ensures opened { F.opened files.new ≡ F.opened files.old }
    ensures faults { HasCauseIn progress.old.outcome progress.new.outcome
        (F.faults files.old) (F.faults files.new) }
{
    if progress.outcome != Outcome::Reading {
        return Ok(None);
    }
    match next_packet(files, &mut progress.tail)? {
        Found::Packet(packet) => {
            let call = call_on(alloc, progress.packet, packet)?;
            Ok(Some(call))
        }
        Found::Ended(outcome) => Ok(close(alloc, progress, outcome)),
    }
}

/// Goes to the end of the capture, and says whether a call was left.
#[tactic(auto, using(crate::proofs::Givings::skipped_already, crate::proofs::Givings::ended_already, crate::proofs::Givings::ended_now, crate::proofs::Givings::ended_ending))]
pub fn skip_calls<F: Files>(files: &mut F, progress: &mut Progress) -> Result<bool, NoMemory>
    ensures skipped { IfOk result (λ more. Related
        (λ rest rest'. IsSkippedBy progress.old.outcome progress.new.outcome more
        (calls_left progress.old rest) (calls_left progress.new rest'))
        (F.rest files.old) (F.rest files.new)) }
    ensures over { OnOk result (is_over progress.new.outcome ≡ true) }
    ensures ending { OnOk result (Related
        (λ rest rest'. ending_left progress.new rest' ≡ ending_left progress.old rest)
        (F.rest files.old) (F.rest files.new)) }
    ensures made { SameMaking progress.old progress.new }
    ensures files { F.files files.new ≡ F.files files.old }
    ensures opened { F.opened files.new ≡ F.opened files.old }
    ensures faults { HasCauseIn progress.old.outcome progress.new.outcome
        (F.faults files.old) (F.faults files.new) }
{
    if progress.outcome != Outcome::Reading {
        return Ok(false);
    }
    let (outcome, more) = skip_packets(files, &mut progress.tail)?;
    let left = end_at(progress, outcome, more);
    Ok(left)
}

/// Ends the capture, and says whether a call was left: that of a packet, or the one at the end.
fn end_at(progress: &mut Progress, outcome: Outcome, more: bool) -> bool
    ensures { IsEnded progress.old progress.new outcome more result }
{
    let left = more || owed(progress, outcome).is_some();
    progress.outcome = outcome;
    left
}

/// How the capture ended, and whether there was a packet before.
#[tactic(auto, using(crate::proofs::Turns::none_skipped, crate::proofs::Turns::skipped_more, crate::proofs::Turns::skipped_all))]
fn skip_packets<F: Files>(files: &mut F, tail: &mut Tail) -> Result<(Outcome, bool), NoMemory>
    ensures skipped { IfOk result (λ end. Related
        (λ rest rest'. Skipped end.1 (reading_of tail.old rest) (reading_of tail.new rest')
        × Agrees end.0 (reading_of tail.new rest'))
        (F.rest files.old) (F.rest files.new)) }
    ensures over { IfOk result (λ end. end.0 ≢ Outcome.Reading) }
    ensures files { F.files files.new ≡ F.files files.old }
    ensures opened { F.opened files.new ≡ F.opened files.old }
    ensures faults { MatchResult result
        (λ end. HasCause end.0 (F.faults files.old) (F.faults files.new))
        (λ _. F.faults files.new ≡ F.faults files.old) }
{
    let mut more = false;
    'packets: loop {
        match next_packet(files, tail)? {
            Found::Packet(_) => more = true,
            Found::Ended(outcome) => return Ok((outcome, more)),
        }
    }
}

/// Ends the capture, or first gives the call at its end.
fn close(alloc: Global, progress: &mut Progress, outcome: Outcome) -> Option<Call>
    ensures done { IfSome result (λ call. IsClosing progress.old progress.new outcome call) }
    ensures none { IfNone result (IsClosed progress.old progress.new outcome) }
{
    match owed(progress, outcome) {
        Some(done) => {
            progress.done_given = true;
            Some(Call {
                function: done,
                args: Forest::new(alloc),
            })
        }
        None => {
            progress.outcome = outcome;
            None
        }
    }
}

/// The function that is still to be called at the end after this outcome.
fn owed(progress: &Progress, outcome: Outcome) -> Option<FnId>
    ensures { result ≡ owed_after outcome progress.now }
{
    if progress.done_given || !is_clean(outcome) {
        None
    } else {
        progress.done
    }
}

/// Whether the call at the end is made after this outcome.
fn is_clean(outcome: Outcome) -> bool
    ensures { result ≡ clean outcome }
{
    matches!(outcome, Outcome::Whole | Outcome::Cut { .. })
}

/// The call of a packet.
fn call_on(alloc: Global, function: FnId, packet: Packet) -> Result<Call, NoMemory>
    ensures { IfOk result (λ call. call ≡ packet_call function packet) }
{
    let mut args = Forest::new(alloc);
    args.push(Tree::Time(packet.time))?;
    args.push(Tree::Bytes(packet.bytes))?;
    Ok(Call { function, args })
}
