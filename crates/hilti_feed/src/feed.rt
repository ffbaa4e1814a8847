ghost use Rattle.std.specs.Prelude.{◌≡◌, [], ◌∷◌, IfOk, IfErr};
ghost use Rattle.hilti_outside.specs.Contents.{Grows, WhereTold, content};
ghost use Rattle.hilti_feed.specs.declared.feed.FeedFault.TheVariants as feed_faults;
ghost use Rattle.hilti_feed.specs.Calls.{IsCallOf};
ghost use Rattle.hilti_feed.specs.Fronts.{IsBadBy, CausesFault};
ghost use Rattle.hilti_feed.specs.Feeds.{coming, ending, making, Tells, IsBegun, IsMade};
ghost use Rattle.hilti_feed.specs.Progress.{is_lost, is_over};

use crate::front::{read_front, split_header};
use crate::pieces::MOST_BYTES;
use crate::progress::{Progress, next_call, skip_calls};
use crate::tail::{Outcome, Source, Tail};
use hilti_base::{Blob, FnId, NoMemory};
use hilti_feeder::Feeder;
use hilti_outside::{Failed, Files};
use hilti_pcap::Reader;
use hilti_tree::Call;
use std::alloc::Global;
use std::marker::Model;

/// Why a capture isn't begun.
#[derive(Clone, Copy, Debug, PartialEq, Eq)]
pub enum FeedFault {
    /// The file wasn't opened, or a read failed.
    ReadFault,
    /// The header is refused: it has fewer than 24 bytes (code 1), no magic number (code 2) or another version (code 3).
    Bad { at: u64, code: u32 },
    NoMemory,
}

impl From<Failed> for FeedFault {
    ghost from_gives = { λ _ fault. fault ≡ feed_faults.ReadFault };

    fn from(_error: Failed) -> FeedFault {
        FeedFault::ReadFault
    }
}

impl From<NoMemory> for FeedFault {
    ghost from_gives = { λ _ fault. fault ≡ feed_faults.NoMemory };

    fn from(_error: NoMemory) -> FeedFault {
        FeedFault::NoMemory
    }
}

/// What a feed was made with. No value of it is made.
#[derive(Debug, Drop)]
pub struct Origin {
    name: Blob,
    packet: FnId,
    done: Option<FnId>,
}

impl Model for Origin {
    ghost use Rattle.std.specs.Prelude.{None};
    ghost use Rattle.hilti_feed.specs.Making.{Making, making_code};

    ghost Value = { Making };

    ghost coded = { making_code };

    ghost view = { λ a. record {
      name = a.name;
      packet = a.packet;
      done = a.done;
      files = None;
      ending = None;
      lender = 0;
    } };
}

/// A capture whose header was read, and of which no call was given. Its file is the current one of the files that it
/// was opened from, and they are what `CaptureFeed::of` wants with it.
#[derive(Debug, Drop)]
pub struct OpenedCapture {
    name: Blob,
    pub(crate) progress: Progress,
}

/// Opens a capture and reads its header.
pub fn open_capture<F: Files>(
    alloc: Global,
    files: &mut F,
    name: &[u8],
    packet: FnId,
    done: Option<FnId>,
) -> Result<OpenedCapture, FeedFault>
    ensures bad { IfErr result (λ fault. WhereTold (F.files files.old) (λ all.
        IsBadBy (content all name.now) fault)) }
    ensures begun { IfOk result (λ capture. WhereTold (F.files files.old) (λ all.
        IsBegun (content all name.now) packet done
        (coming (F.files files.new) (F.rest files.new) capture.progress)
        (ending (F.files files.new) (F.rest files.new) capture.progress))) }
    ensures name { IfOk result (λ capture. capture.name ≡ name.now) }
    ensures calls { IfOk result (λ capture.
        (capture.progress.packet ≡ packet) × (capture.progress.done ≡ done)) }
    ensures reading { IfOk result (λ capture. capture.progress.outcome ≡ Outcome.Reading) }
    ensures files { F.files files.new ≡ F.files files.old }
    ensures opened { Grows (F.opened files.old) (F.opened files.new) (name.now ∷ []) }
    ensures faults { CausesFault result (F.faults files.old) (F.faults files.new) }
{
    files.open_file(name)?;
    let front = read_front(alloc, files)?;
    let (header, records) = split_header(front.bytes())?;
    let mut reader = Reader::new(alloc, header);
    reader.feed(records)?;
    let name = Blob::of(alloc, name)?;
    let room = MOST_BYTES - front.len() as u64;
    let tail = Tail {
        reader,
        room,
        source: Source::Open,
    };
    let progress = Progress {
        packet,
        done,
        done_given: false,
        tail,
        outcome: Outcome::Reading,
    };
    Ok(OpenedCapture { name, progress })
}

/// The calls of a capture: one of `packet` for each packet, with its time and its bytes, and then one of `done`, where
/// there is such a function and the capture isn't bad. The file is read in pieces, as calls are asked for.
#[derive(Drop)]
pub struct CaptureFeed<'a, F: Files> {
    alloc: Global,
    files: &'a mut F,
    name: Blob,
    progress: Progress,
}

impl<'a, F: Files> CaptureFeed<'a, F> {
    /// Opens a capture and reads its header. The files are lent to the feed; where it isn't begun they are back. What
    /// the files count then is said by `open_capture`, which with `of` does the same in two calls.
    pub fn begin(
        alloc: Global,
        files: &'a mut F,
        name: &[u8],
        packet: FnId,
        done: Option<FnId>,
    ) -> Result<CaptureFeed<'a, F>, FeedFault>
        ensures bad { IfErr result (λ fault. WhereTold (F.files files.old) (λ all.
            IsBadBy (content all name.now) fault)) }
        ensures begun { IfOk result (λ feed. WhereTold (F.files files.old) (λ all.
            IsBegun (content all name.now) packet done
            (coming (F.files feed.files.now) (F.rest feed.files.now) feed.progress)
            (ending (F.files feed.files.now) (F.rest feed.files.now) feed.progress))) }
        ensures origin { IfOk result (λ feed. IsMade
            (F.files files.old) files.entry.ghost_name name.now packet done
            (making (F.files feed.files.now) (F.rest feed.files.now)
            feed.files.ghost_name feed.name feed.progress)) }
        ensures reading { IfOk result (λ feed. feed.progress.outcome ≡ Outcome.Reading) }
        ensures heard { IfOk result (λ feed. F.faults feed.files.now ≡ F.faults files.old) }
    {
        let capture = open_capture(alloc, files, name, packet, done)?;
        Ok(CaptureFeed::of(alloc, files, capture))
    }

    /// The calls of an opened capture, of the files that it was opened from.
    pub fn of(alloc: Global, files: &'a mut F, capture: OpenedCapture) -> CaptureFeed<'a, F>
        ensures same_files { result.files.ghost_name ≡ files.entry.ghost_name }
        ensures files { result.files.now ≡ files.old }
        ensures name { result.name ≡ capture.name }
        ensures progress { result.progress ≡ capture.progress }
    {
        let OpenedCapture { name, progress } = capture;
        CaptureFeed {
            alloc,
            files,
            name,
            progress,
        }
    }

    /// How the capture ended: `Reading` until `next` answered `None` or `rest` answered. After `Bad` and `ReadFault` no
    /// further call is given.
    pub fn outcome(&self) -> Outcome
        ensures outcome { result ≡ self.now.progress.outcome }
        ensures told { Tells result
            (ending (F.files self.now.files.now) (F.rest self.now.files.now) self.now.progress) }
    {
        self.progress.outcome
    }
}

impl<'a, F: Files> Feeder for CaptureFeed<'a, F> {
    type Origin = Origin;

    ghost coming = { λ s. coming (F.files s.files.now) (F.rest s.files.now) s.progress };

    ghost faults = { λ s. F.faults s.files.now };

    ghost lost = { λ s. is_lost s.progress.outcome };

    ghost origin = { λ s.
        making (F.files s.files.now) (F.rest s.files.now) s.files.ghost_name s.name s.progress };

    ghost gives = { λ origin call. IsCallOf origin.packet origin.done call };

    ghost ended = { λ s. is_over s.progress.outcome };

    fn next(&mut self) -> Result<Option<Call>, NoMemory> {
        let next = next_call(self.alloc, self.files, &mut self.progress)?;
        Ok(next)
    }

    fn rest(&mut self) -> Result<bool, NoMemory> {
        let more = skip_calls(self.files, &mut self.progress)?;
        Ok(more)
    }
}
