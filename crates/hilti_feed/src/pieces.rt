ghost use Rattle.std.specs.Prelude.{◌≡◌, ◌≢◌, ◌<◌, ℕ, List, IfOk, OnOk, IfSome, IfNone};
ghost use Rattle.std.specs.Prelude.{MatchOption, MatchResult};
ghost use Rattle.hilti_pcap.specs.Records.{IsPartial};
ghost use Rattle.hilti_feed.specs.declared.pieces.PieceFault.TheVariants as piece_faults;
ghost use Rattle.hilti_feed.specs.Faults.{CausesFault, HasCause, HasFault, IfUnlessMemory, IsFound};
ghost use Rattle.hilti_feed.specs.Faults.{IsPacket, IsHeard};
ghost use Rattle.hilti_feed.specs.Known.{Related};
ghost use Rattle.hilti_feed.specs.Tails.{Agrees, Gives, IsHolding, SameReading, reading_of, weight};

use crate::tail::{Outcome, Source, Tail};
use hilti_base::NoMemory;
use hilti_outside::{Failed, Files};
use hilti_pcap::{Ending, Next, Packet};

/// How many bytes are read at a time.
pub const PIECE: usize = 16384;

/// The most bytes of a capture.
pub const MOST_BYTES: u64 = 1_073_741_824;

/// What comes next.
#[derive(Debug, Drop)]
pub enum Found {
    Packet(Packet),
    Ended(Outcome),
}

/// Why no piece was read.
enum PieceFault {
    Failed,
    NoMemory,
}

impl From<Failed> for PieceFault {
    ghost from_gives = { λ _ fault. fault ≡ piece_faults.Failed };

    fn from(_error: Failed) -> PieceFault {
        PieceFault::Failed
    }
}

impl From<NoMemory> for PieceFault {
    ghost from_gives = { λ _ fault. fault ≡ piece_faults.NoMemory };

    fn from(_error: NoMemory) -> PieceFault {
        PieceFault::NoMemory
    }
}

/// The next packet, or how the capture ended.
#[tactic(auto, using(crate::proofs::Turns::same_first, crate::proofs::Turns::went_on, crate::proofs::Turns::found_now, crate::proofs::Turns::ended_now))]
pub fn next_packet<F: Files>(files: &mut F, tail: &mut Tail) -> Result<Found, NoMemory>
    ensures gives { IfOk result (λ found. Related
        (λ rest rest'. Gives found (reading_of tail.old rest) (reading_of tail.new rest'))
        (F.rest files.old) (F.rest files.new)) }
    ensures found { IfOk result IsFound }
    ensures lighter { IfOk result (λ found. IsPacket found → weight tail.new < weight tail.old) }
    ensures files { F.files files.new ≡ F.files files.old }
    ensures opened { F.opened files.new ≡ F.opened files.old }
    ensures faults { MatchResult result
        (λ found. HasFault found (F.faults files.old) (F.faults files.new))
        (λ _. F.faults files.new ≡ F.faults files.old) }
{
    'pieces: loop {
        if let Some(found) = take_next(tail)? {
            return Ok(found);
        }
        if let Some(outcome) = refill(files, tail)? {
            return Ok(Found::Ended(outcome));
        }
    }
}

/// What the reader gives; `None` where the bytes that it holds are no whole record.
#[tactic(auto, using(crate::proofs::Nexts::record_gives, crate::proofs::Nexts::record_lighter, crate::proofs::Nexts::long_gives, crate::proofs::Nexts::holding))]
fn take_next(tail: &mut Tail) -> Result<Option<Found>, NoMemory>
    ensures gives { IfOk result (λ next. IfSome next (λ found. (rest : List ℕ)
        → Gives found (reading_of tail.old rest) (reading_of tail.new rest))) }
    ensures found { IfOk result (λ next. IfSome next IsFound) }
    ensures lighter { IfOk result (λ next. IfSome next (λ found. IsPacket found
        → weight tail.new < weight tail.old)) }
    ensures heard { IfOk result (λ next. IfSome next (λ found. IsHeard found)) }
    ensures none { IfOk result (λ next. IfNone next (IsHolding tail.old tail.new)) }
{
    match tail.reader.next()? {
        Next::Packet(packet) => Ok(Some(Found::Packet(packet))),
        Next::TooLong { at, .. } => Ok(Some(Found::Ended(Outcome::Bad { at, code: 4 }))),
        Next::More => Ok(None),
    }
}

/// Reads on where no whole record is held; or how the capture ended.
fn refill<F: Files>(files: &mut F, tail: &mut Tail) -> Result<Option<Outcome>, NoMemory>
    requires { IsPartial tail.old.reader.header tail.old.reader.bytes }
    ensures same { OnOk result (SameReading tail.old tail.new
        (F.rest files.old) (F.rest files.new)) }
    ensures agrees { IfOk result (λ ended. IfSome ended (λ outcome. (rest : List ℕ)
        → Agrees outcome (reading_of tail.new rest))) }
    ensures over { IfOk result (λ ended. IfSome ended (λ outcome. outcome ≢ Outcome.Reading)) }
    ensures lighter { IfOk result (λ ended. IfNone ended (weight tail.new < weight tail.old)) }
    ensures files { F.files files.new ≡ F.files files.old }
    ensures opened { F.opened files.new ≡ F.opened files.old }
    ensures faults { MatchResult result
        (λ ended. MatchOption ended (F.faults files.new ≡ F.faults files.old)
        (λ outcome. HasCause outcome (F.faults files.old) (F.faults files.new)))
        (λ _. F.faults files.new ≡ F.faults files.old) }
{
    if tail.source != Source::Open {
        return Ok(Some(end_of(tail)));
    }
    match read_piece(files, tail) {
        Ok(()) => Ok(None),
        Err(PieceFault::Failed) => Ok(Some(Outcome::ReadFault)),
        Err(PieceFault::NoMemory) => Err(NoMemory),
    }
}

/// How the capture ended, where its file isn't read on and no whole record is held.
#[tactic(auto, using(crate::proofs::Nexts::ends_larger, crate::proofs::Nexts::ends_whole, crate::proofs::Nexts::ends_cut))]
fn end_of(tail: &Tail) -> Outcome
    requires partial { IsPartial tail.now.reader.header tail.now.reader.bytes }
    requires closed { tail.now.source ≢ Source.Open }
    ensures agrees { (rest : List ℕ) → Agrees result (reading_of tail.now rest) }
    ensures over { result ≢ Outcome.Reading }
    ensures heard { result ≢ Outcome.ReadFault }
{
    match tail.source {
        Source::Open => unreachable!(),
        Source::Larger => Outcome::Bad {
            at: MOST_BYTES,
            code: 5,
        },
        Source::Ended => match tail.reader.finish() {
            Ending::Whole => Outcome::Whole,
            Ending::Cut { at } => Outcome::Cut { at },
        },
    }
}

/// Feeds the next piece of the file to the reader, as far as the capture may have it.
#[tactic(auto, using(crate::proofs::Windows::read_more, crate::proofs::Windows::lighter_more, crate::proofs::Windows::read_past, crate::proofs::Windows::read_nothing, crate::proofs::Windows::kept))]
fn read_piece<F: Files>(files: &mut F, tail: &mut Tail) -> Result<(), PieceFault>
    requires { tail.old.source ≡ Source.Open }
    ensures same { IfUnlessMemory result (SameReading tail.old tail.new
        (F.rest files.old) (F.rest files.new)) }
    ensures lighter { OnOk result (weight tail.new < weight tail.old) }
    ensures files { F.files files.new ≡ F.files files.old }
    ensures opened { F.opened files.new ≡ F.opened files.old }
    ensures faults { CausesFault result (F.faults files.old) (F.faults files.new) }
{
    let mut piece = [0; PIECE];
    let count = files.read(&mut piece)?;
    if count == 0 {
        tail.source = Source::Ended;
    } else if (count as u64) <= tail.room {
        tail.reader.feed(&piece[..count])?;
        tail.room -= count as u64;
    } else {
        tail.reader.feed(&piece[..tail.room as usize])?;
        tail.room = 0;
        tail.source = Source::Larger;
    }
    Ok(())
}
