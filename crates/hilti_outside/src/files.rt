ghost use Rattle.std.specs.Prelude.{◌≡◌, ◌≢◌, ℕ, ◌<◌, ◌≤◌, List, [], ◌∷◌, length, Option, Some};
ghost use Rattle.std.specs.Prelude.{IsSome, IfOk, OnOk, OnErr};
ghost use Rattle.std.specs.Io.{ReadsAtMost};
ghost use Rattle.std.specs.Io.KnownBytes.{ReadConsumes};
ghost use Rattle.hilti_outside.specs.Faults.{HasCause, Rose};
ghost use Rattle.hilti_outside.specs.Contents.{FileMap, Grows, Holds, WhereTold, content};
ghost use Rattle.hilti_outside.specs.declared.files.FileFault.TheVariants as faults;

use hilti_base::{Blob, NoMemory};
use std::alloc::Global;

/// How many bytes `read_file` asks for at a time.
const PIECE: usize = 16384;

/// A call to the outside failed. The count of faults of what was called says so too.
#[derive(Clone, Copy, Debug, PartialEq, Eq)]
pub struct Failed;

/// Files that are opened by name and read from front to back, one at a time.
pub trait Files {
    /// What each name stands for, where that is told.
    ghost files: { Self → Option FileMap };

    /// The bytes of the current file that are still unread, none where no file is current; where that is told.
    ghost rest: { Self → Option (List ℕ) };

    /// The names that were opened, one after another, also those that failed to open; where that is told.
    ghost opened: { Self → Option (List (List ℕ)) };

    /// How many calls failed. It stays at `u64::MAX` once it is there.
    ghost faults: { Self → ℕ };

    /// Makes the named file current, with all its bytes unread. A name that isn't among `files` is an empty file, if it
    /// can be opened. After `Failed` no file is current.
    fn open_file(&mut self, name: &[u8]) -> Result<(), Failed>
        ensures files { files self.new ≡ files self.old }
        ensures ok { OnOk result
            (WhereTold (files self.old) (λ all. rest self.new ≡ Some (content all name.now))) }
        ensures err { OnErr result (Holds (rest self.new) []) }
        ensures opened { Grows (opened self.old) (opened self.new) (name.now ∷ []) }
        ensures cause { HasCause (faults self.old) (faults self.new) result };

    /// Moves bytes of the current file to the front of `into`, and says how many: 0 exactly where none is left.
    fn read(&mut self, into: &mut [u8]) -> Result<usize, Failed>
        requires { 0 < length into.old }
        ensures files { files self.new ≡ files self.old }
        ensures opened { opened self.new ≡ opened self.old }
        ensures count { ReadsAtMost result into.new }
        ensures moved { ReadConsumes (rest self.old) (rest self.new) result into.new }
        ensures cause { HasCause (faults self.old) (faults self.new) result };

    /// Where the files are told, so are the bytes that are left.
    ghost told: { (s : Self) (all : FileMap) → files s ≡ Some all → IsSome (rest s) };
}

/// Why a file wasn't read to its end.
#[derive(Clone, Copy, Debug, PartialEq, Eq)]
pub enum FileFault {
    /// An opening or a read failed.
    Failed,
    /// The file has more bytes than were asked for.
    TooLong,
    NoMemory,
}

impl From<Failed> for FileFault {
    ghost from_gives = { λ _ fault. fault ≡ faults.Failed };

    fn from(_error: Failed) -> FileFault {
        FileFault::Failed
    }
}

impl From<NoMemory> for FileFault {
    ghost from_gives = { λ _ fault. fault ≡ faults.NoMemory };

    fn from(_error: NoMemory) -> FileFault {
        FileFault::NoMemory
    }
}

/// The whole of a file of at most `limit` bytes.
pub fn read_file<F: Files>(
    alloc: Global,
    files: &mut F,
    name: &[u8],
    limit: usize,
) -> Result<Blob, FileFault>
    ensures files { F.files files.new ≡ F.files files.old }
    ensures opened { Grows (F.opened files.old) (F.opened files.new) (name.now ∷ []) }
    ensures whole { IfOk result
        (λ bytes. WhereTold (F.files files.old) (λ all. bytes ≡ content all name.now)) }
    ensures within { IfOk result (λ bytes. length bytes ≤ limit) }
    ensures too_long { result ≡ Err FileFault.TooLong →
        WhereTold (F.files files.old) (λ all. limit < length (content all name.now)) }
    ensures failed { result ≡ Err FileFault.Failed
        → Rose (F.faults files.old) (F.faults files.new) }
    ensures heard { result ≢ Err FileFault.Failed → F.faults files.new ≡ F.faults files.old }
{
    files.open_file(name)?;
    let mut bytes = Blob::new(alloc);
    let mut piece = [0; PIECE];
    'pieces: loop {
        let count = files.read(&mut piece)?;
        if count == 0 {
            return Ok(bytes);
        }
        if limit - bytes.len() < count {
            return Err(FileFault::TooLong);
        }
        bytes.append(&piece[..count])?;
    }
}
