ghost use Rattle.std.specs.Prelude.{◌≡◌, ◌<◌, length, take, IfOk, OnErr};
ghost use Rattle.std.specs.Io.{WritesAtMost};
ghost use Rattle.hilti_outside.specs.Contents.{Grows};
ghost use Rattle.hilti_outside.specs.Faults.{HasCause};
ghost use Rattle.hilti_outside.specs.Fakes.{counted};

use crate::count::one_more;
use crate::files::Failed;
use crate::interrupted;
use crate::sink::Sink;
use std::io::Write;
use std::marker::Model;
use std::snapshot::Snapshot;

/// A writer as a sink, unbuffered: what a write took was handed to the writer. A call that is interrupted is tried
/// again at most 16 times. What was written is told where the writer tells it from the start on.
#[derive(Drop)]
pub struct OutSink<W: Write> {
    out: W,
    first: Snapshot<W>,
    faults: u64,
}

impl<W: Write> Model for OutSink<W> {
    ghost use Rattle.hilti_outside.specs.System.{StaysTold, SystemSink, told_since};

    ghost Value = { SystemSink };

    ghost view = { λ a. record {
      written = told_since (W.contents a.first.value) (W.contents a.out);
      faults = a.faults;
    } };

    ghost invariant = { λ a. StaysTold (W.contents a.first.value) (W.contents a.out) };
}

impl<W: Write> OutSink<W> {
    /// Standard output, as a `main` has it: `OutSink::new(io::writer(&rt))`.
    pub fn new(out: W) -> OutSink<W>
        ensures { result ≡ record { written = W.contents out; faults = 0 } }
    {
        let first = Snapshot::of(&out);
        OutSink {
            out,
            first,
            faults: 0,
        }
    }
}

impl<W: Write> Sink for OutSink<W> {
    ghost written = { λ s. s.written };

    ghost faults = { λ s. s.faults };

    #[tactic(auto, using(crate::proofs::Tries::stays_appended, crate::proofs::Tries::stays_kept, crate::proofs::Tries::grows_appended, crate::proofs::Tries::tells_kept))]
    fn write(&mut self, piece: &[u8]) -> Result<usize, Failed>
        ensures count { WritesAtMost result piece.now }
        ensures some { 0 < length piece.now → IfOk result (λ n. 0 < n) }
        ensures ok { IfOk result (λ n. Grows self.old.written self.new.written (take n piece.now)) }
        ensures err { OnErr result (self.new.written ≡ self.old.written) }
        ensures cause { HasCause self.old.faults self.new.faults result }
        ensures faults { OnErr result (self.new.faults ≡ counted self.old.faults) }
    {
        match interrupted::write(&mut self.out, piece) {
            Ok(count) => Ok(count),
            Err(error) => {
                self.faults = one_more(self.faults);
                Err(error)
            }
        }
    }
}
