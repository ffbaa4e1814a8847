ghost use Rattle.std.specs.Prelude.{◌≡◌, ℕ, ◌<◌, List, length, take, Option, IfOk, OnOk, OnErr};
ghost use Rattle.std.specs.Io.{WritesAtMost};
ghost use Rattle.hilti_outside.specs.Faults.{HasCause};
ghost use Rattle.hilti_outside.specs.Contents.{Grows, GrowsByFront};

use crate::files::Failed;

/// What bytes are written to, one piece after another.
pub trait Sink {
    /// All bytes that were taken, where that is told.
    ghost written: { Self → Option (List ℕ) };

    /// How many calls failed. It stays at `u64::MAX` once it is there.
    ghost faults: { Self → ℕ };

    /// Takes bytes from the front of `piece`, and says how many: at least 1 of a piece that isn't empty.
    fn write(&mut self, piece: &[u8]) -> Result<usize, Failed>
        ensures count { WritesAtMost result piece.now }
        ensures some { 0 < length piece.now → IfOk result (λ n. 0 < n) }
        ensures ok { IfOk result
            (λ n. Grows (written self.old) (written self.new) (take n piece.now)) }
        ensures err { OnErr result (written self.new ≡ written self.old) }
        ensures cause { HasCause (faults self.old) (faults self.new) result };
}

/// Writes the whole text. Each write is handed all that is left of it. After `Failed` a front of the text was written
/// that isn't the whole of it.
pub fn write_all<S: Sink>(sink: &mut S, text: &[u8]) -> Result<(), Failed>
    ensures ok { OnOk result (Grows (S.written sink.old) (S.written sink.new) text.now) }
    ensures err { OnErr result (GrowsByFront (S.written sink.old) (S.written sink.new) text.now) }
    ensures cause { HasCause (S.faults sink.old) (S.faults sink.new) result }
{
    let mut rest = text;
    'pieces: while !rest.is_empty() {
        let count = sink.write(rest)?;
        rest = &rest[count..];
    }
    Ok(())
}
