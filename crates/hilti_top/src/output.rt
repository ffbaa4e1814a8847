//! What a command writes, once its modules are accepted.
ghost use Rattle.std.specs.Prelude.{◌≡◌, ℕ, [], ◌∷◌, Err, IfOk};
ghost use Rattle.hilti_code.specs.Runnable.{IsTypedProgram};
ghost use Rattle.hilti_outside.specs.Contents.{Grows, WhereTold, content};
ghost use Rattle.hilti_feed.specs.Fronts.{CausesFault};
ghost use Rattle.hilti_feed.specs.Wholes.{IsBadCapture};
ghost use Rattle.hilti_top.specs.Inputs.{IsCaptureRefused, IsOutput, ReportsRun};
ghost use Rattle.hilti_top.specs.Report as specs;
ghost use Rattle.hilti_words.specs.Words.{asked_by, captures_in};

use crate::run::run_calls;
use crate::status::Status;
use hilti_base::{Blob, Limits, NoMemory};
use hilti_feed::{FeedFault, capture_calls};
use hilti_outside::Files;
use hilti_print::number;
use hilti_program::Program;
use hilti_words::Command;
use std::alloc::Global;

/// What a command writes, and how it ends where all of that is written.
#[derive(Debug, Drop)]
pub struct Output {
    pub text: Blob,
    pub status: Status,
}

/// What `check` writes: how many functions and hook bodies there are.
fn accepted_text(alloc: Global, program: &Program) -> Result<Blob, NoMemory>
    ensures { IfOk result (λ text. text ≡ specs.accepted_text program.now) }
{
    let mut out = Blob::of(alloc, b"accepted: ")?;
    number(&mut out, u64::from(program.functions()))?;
    out.append(b" functions\n")?;
    Ok(out)
}

/// What `one` writes: the report of the program's run over the capture in a file.
fn run_output<F: Files>(
    alloc: Global,
    files: &mut F,
    limits: Limits,
    capture: &[u8],
    program: Program,
) -> Result<Output, FeedFault>
    requires typed { IsTypedProgram program }
    ensures files { F.files files.new ≡ F.files files.old }
    ensures opened { Grows (F.opened files.old) (F.opened files.new) (capture.now ∷ []) }
    ensures run { IfOk result (λ output. ReportsRun (F.files files.old) limits capture.now
        program output.status output.text) }
    ensures bad { (at code : ℕ) → result ≡ Err (FeedFault.Bad at code) →
        WhereTold (F.files files.old) (λ all. IsBadCapture (content all capture.now) at code) }
    ensures faults { CausesFault result (F.faults files.old) (F.faults files.new) }
{
    let packet = program.packet();
    let done = program.done();
    let calls = capture_calls(alloc, files, capture, packet, done)?;
    Ok(run_calls(alloc, limits, program, calls)?)
}

/// What a command writes, where its modules are this program, and how it ends.
pub fn output_of<F: Files>(
    alloc: Global,
    files: &mut F,
    command: &Command,
    program: Program,
) -> Result<Output, FeedFault>
    requires typed { IsTypedProgram program }
    ensures files { F.files files.new ≡ F.files files.old }
    ensures opened { Grows (F.opened files.old) (F.opened files.new)
        (captures_in (asked_by command.now)) }
    ensures output { IfOk result (λ output. IsOutput (F.files files.old) (asked_by command.now)
        program output.status output.text) }
    ensures bad { (at code : ℕ) → result ≡ Err (FeedFault.Bad at code) →
        IsCaptureRefused (F.files files.old) (asked_by command.now) at code }
    ensures faults { CausesFault result (F.faults files.old) (F.faults files.new) }
{
    match command {
        Command::Check { modules: _ } => Ok(Output {
            text: accepted_text(alloc, &program)?,
            status: Status::Done,
        }),
        Command::One {
            limits,
            capture,
            modules: _,
        } => run_output(alloc, files, *limits, capture.bytes(), program),
    }
}
