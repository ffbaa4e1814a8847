ghost use Rattle.std.specs.Prelude.{◌≡◌, ◌≢◌, ℕ, List};
ghost use Rattle.hilti_base.specs.declared.names.Place.{Place as APlace};
ghost use Rattle.hilti_outside.specs.Contents.{Grows, GrowsByFront};
ghost use Rattle.hilti_outside.specs.Faults.{Rose};
ghost use Rattle.hilti_parts.specs.declared.parts.Parts.{Parts};
ghost use Rattle.hilti_top.specs.declared.status.Status.{Status as AStatus};
ghost use Rattle.hilti_top.specs.Inputs.{AreAccepted, AreRefused, RefusesCapture, Reports};
ghost use Rattle.hilti_top.specs.Opening.{OpensFor};
ghost use Rattle.hilti_top.specs.StatusText.{IsSilent, IsWritten};
ghost use Rattle.hilti_words.specs.Words.{Asks, IsCommand, modules_in};

use crate::modules::{ModulesFault, read_modules};
use crate::output::output_of;
use crate::status::Status;
use hilti_base::Blob;
use hilti_feed::FeedFault;
use hilti_outside::{Files, Sink, write_all};
use hilti_words::{WordsFault, read_words};
use std::alloc::Global;

/// Does what the words of the command line say, without the program's own name.
///
/// The words are judged first; then the files of the modules are read in word order, then their texts, then they are
/// linked, and then checked. For `check` that is all; for `one` the capture is read then, and the program is run over
/// its packets. Where a refusal or a fault comes, nothing after it is done, and nothing is written. The output is one
/// text; `CallLimit` and `CaptureCut` come behind it as `Done` does. Nothing else is told by `NoMemory`, which may come
/// wherever memory is taken, but for words that aren't a command.
#[tactic(auto, using(crate::proofs::Opened::refused_opened, crate::proofs::Opened::all_opened))]
pub fn hilti_call<F: Files, S: Sink>(
    alloc: Global,
    words: &[Blob],
    files: &mut F,
    sink: &mut S,
) -> Status
    // The words.
    ensures usage { result ≡ Status.Usage → IsCommand words.now → ⊥ }
    ensures command { result ≢ Status.Usage → result ≢ Status.NoMemory → IsCommand words.now }

    // What is opened.
    ensures opens { OpensFor result words.now
        (F.files files.old) (F.opened files.old) (F.opened files.new) }

    // What is refused, and why.
    ensures bad_module { (place : APlace) (code : ℕ) →
        result ≡ Status.BadModule place code →
        Asks words.now (λ asked.
        AreRefused (F.files files.old) (modules_in asked) place code) }
    ensures bad_capture { (at code : ℕ) →
        result ≡ Status.BadCapture at code →
        Asks words.now (RefusesCapture (F.files files.old) at code) }
    ensures module_first { (at code : ℕ) →
        result ≡ Status.BadCapture at code →
        (parts : Parts) × Asks words.now (λ asked.
        AreAccepted (F.files files.old) (modules_in asked) parts) }

    // What is written.
    ensures reported { IsWritten result →
        Asks words.now (Reports (F.files files.old) result
        (Grows (S.written sink.old) (S.written sink.new))) }
    ensures write_fault { result ≡ Status.WriteFault →
        (status : AStatus) × Asks words.now (Reports (F.files files.old) status
        (GrowsByFront (S.written sink.old) (S.written sink.new))) }
    ensures unwritten { IsSilent result → S.written sink.new ≡ S.written sink.old }

    // Faults of the outside: none comes without its cause, and none goes unheard.
    ensures read_fault { result ≡ Status.ReadFault →
        Rose (F.faults files.old) (F.faults files.new) }
    ensures reads_heard { result ≢ Status.ReadFault → F.faults files.new ≡ F.faults files.old }
    ensures write_failed { result ≡ Status.WriteFault →
        Rose (S.faults sink.old) (S.faults sink.new) }
    ensures writes_heard { result ≢ Status.WriteFault → S.faults sink.new ≡ S.faults sink.old }
    ensures files { F.files files.new ≡ F.files files.old }
{
    let command = match read_words(alloc, words) {
        Ok(command) => command,
        Err(WordsFault::Usage) => return Status::Usage,
        Err(WordsFault::NoMemory) => return Status::NoMemory,
    };
    let program = match read_modules(alloc, files, command.modules().as_slice()) {
        Ok(program) => program,
        Err(ModulesFault::ReadFault) => return Status::ReadFault,
        Err(ModulesFault::At { place, code }) => return Status::BadModule { place, code },
        Err(ModulesFault::NoMemory) => return Status::NoMemory,
    };
    let output = match output_of(alloc, files, &command, program) {
        Ok(output) => output,
        Err(FeedFault::ReadFault) => return Status::ReadFault,
        Err(FeedFault::Bad { at, code }) => return Status::BadCapture { at, code },
        Err(FeedFault::NoMemory) => return Status::NoMemory,
    };
    match write_all(sink, output.text.bytes()) {
        Ok(()) => output.status,
        Err(_) => Status::WriteFault,
    }
}
