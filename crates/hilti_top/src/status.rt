ghost use Rattle.std.specs.Prelude.{◌≡◌, ◌++◌, IfOk, OnOk};
ghost use Rattle.hilti_top.specs.StatusText.{code_text, number_of, text_of};

use hilti_base::{Blob, NoMemory, Place};
use hilti_print::number;
use std::alloc::Global;

/// How a command ended.
#[derive(Clone, Copy, Debug, PartialEq, Eq)]
pub enum Status {
    /// The whole output was written.
    Done,
    /// The words aren't a command.
    Usage,
    /// A file couldn't be opened or read.
    ReadFault,
    /// A module is refused: the place in it, and the code of the rule that it breaks.
    BadModule { place: Place, code: u32 },
    /// The capture is refused: how many bytes stand before the fault, and its code.
    BadCapture { at: u64, code: u32 },
    /// As many calls as may started, and a call waits. The whole output was written.
    CallLimit,
    /// A write failed. A front of the output may have been written.
    WriteFault,
    NoMemory,
    /// The capture ends inside the record that begins at this place. The whole output was written.
    CaptureCut { at: u64 },
}

impl Status {
    /// The number that the program ends with.
    pub fn number(&self) -> u8
        ensures { result ≡ number_of self.now }
    {
        match self {
            Status::Done => 0,
            Status::Usage => 1,
            Status::ReadFault => 2,
            Status::BadModule { .. } => 3,
            Status::BadCapture { .. } => 4,
            Status::CallLimit => 5,
            Status::WriteFault => 6,
            Status::NoMemory => 7,
            Status::CaptureCut { .. } => 8,
        }
    }

    /// What the program writes to standard error: a line with its line end, or nothing for `Done`.
    pub fn text(&self, alloc: Global) -> Result<Blob, NoMemory>
        ensures { IfOk result (λ text. text ≡ text_of self.now) }
    {
        match self {
            Status::Done => Ok(Blob::new(alloc)),
            Status::Usage => Blob::of(
                alloc,
                b"hilti: usage: check, one, run or gen; see the manual\n",
            ),
            Status::ReadFault => Blob::of(alloc, b"hilti: cannot read\n"),
            Status::BadModule { place, code } => bad_module_text(alloc, place, *code),
            Status::BadCapture { at, code } => bad_capture_text(alloc, *at, *code),
            Status::CallLimit => Blob::of(alloc, b"hilti: call limit reached\n"),
            Status::WriteFault => Blob::of(alloc, b"hilti: cannot write\n"),
            Status::NoMemory => Blob::of(alloc, b"hilti: out of memory\n"),
            Status::CaptureCut { at } => capture_cut_text(alloc, *at),
        }
    }
}

/// The text of a refused module.
fn bad_module_text(alloc: Global, place: &Place, code: u32) -> Result<Blob, NoMemory>
    ensures { IfOk result (λ text. text ≡ text_of (Status.BadModule place.now code)) }
{
    let mut out = Blob::of(alloc, b"hilti: module ")?;
    number(&mut out, u64::from(place.file))?;
    out.append(b":")?;
    number(&mut out, u64::from(place.line))?;
    out.append(b":")?;
    number(&mut out, u64::from(place.column))?;
    append_code(&mut out, code)?;
    Ok(out)
}

/// The text of a refused capture.
fn bad_capture_text(alloc: Global, at: u64, code: u32) -> Result<Blob, NoMemory>
    ensures { IfOk result (λ text. text ≡ text_of (Status.BadCapture at code)) }
{
    let mut out = Blob::of(alloc, b"hilti: capture at ")?;
    number(&mut out, at)?;
    append_code(&mut out, code)?;
    Ok(out)
}

/// The text of a capture that is cut.
fn capture_cut_text(alloc: Global, at: u64) -> Result<Blob, NoMemory>
    ensures { IfOk result (λ text. text ≡ text_of (Status.CaptureCut at)) }
{
    let mut out = Blob::of(alloc, b"hilti: capture cut at ")?;
    number(&mut out, at)?;
    out.append(b"\n")?;
    Ok(out)
}

/// The code of a refusal, behind its place.
fn append_code(out: &mut Blob, code: u32) -> Result<(), NoMemory>
    ensures { OnOk result (out.new ≡ out.old ++ code_text code) }
{
    out.append(b": code ")?;
    number(out, u64::from(code))?;
    out.append(b"\n")
}
