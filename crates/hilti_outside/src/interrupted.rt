//! Calls to the system that are tried again where they are interrupted.
ghost use Rattle.std.specs.Prelude.{◌≡◌, ◌<◌, ◌≤◌, length, IfOk};
ghost use Rattle.std.specs.Io.{ReadsAtMost, WritesAtMost};
ghost use Rattle.std.specs.Io.KnownBytes.{ReadConsumes, WriteAppends};

use crate::files::Failed;
use std::io::{ErrorKind, Read, Write};
use std::{fs, rt};

/// How many times an interrupted call is tried again.
const RETRIES: u32 = 16;

/// Opens a file to be read.
pub fn open<R: rt::Files>(system: &R, path: &str) -> Result<R::File, Failed> {
    for _ in 0..=RETRIES {
        match fs::open(system, path) {
            Ok(file) => return Ok(file),
            Err(e) if e.kind() == ErrorKind::Interrupted => {}
            Err(_) => return Err(Failed),
        }
    }
    Err(Failed)
}

/// Moves bytes of a file to the front of `into`, and says how many.
#[tactic(auto, using(crate::proofs::Tries::keeps_same, crate::proofs::Tries::keeps_more, crate::proofs::Tries::consumes_then))]
pub fn read<F: Read>(file: &mut F, into: &mut [u8]) -> Result<usize, Failed>
    ensures count { ReadsAtMost result into.new }
    ensures moved { ReadConsumes (F.remaining file.old) (F.remaining file.new) result into.new }
{
    'tries: for _ in 0..=RETRIES {
        match file.read(into) {
            Ok(count) => return Ok(count),
            Err(e) if e.kind() == ErrorKind::Interrupted => {}
            Err(_) => return Err(Failed),
        }
    }
    Err(Failed)
}

/// Writes bytes from the front of a piece, and says how many: at least 1 of a piece that isn't empty.
#[tactic(auto, using(crate::proofs::Tries::keeps_same, crate::proofs::Tries::keeps_more, crate::proofs::Tries::appends_then, crate::proofs::Tries::appends_nothing))]
pub fn write<W: Write>(out: &mut W, piece: &[u8]) -> Result<usize, Failed>
    ensures count { WritesAtMost result piece.now }
    ensures some { 0 < length piece.now → IfOk result (λ n. 0 < n) }
    ensures taken { WriteAppends (W.contents out.old) (W.contents out.new) result piece.now }
{
    'tries: for _ in 0..=RETRIES {
        match out.write(piece) {
            Ok(0) if !piece.is_empty() => return Err(Failed),
            Ok(count) => return Ok(count),
            Err(e) if e.kind() == ErrorKind::Interrupted => {}
            Err(_) => return Err(Failed),
        }
    }
    Err(Failed)
}
