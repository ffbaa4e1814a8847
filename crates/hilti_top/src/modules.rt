//! The modules of a command, from the names of their files to the program that they are.
ghost use Rattle.std.specs.Prelude.{◌≡◌, ◌≢◌, ◌<◌, ◌≤◌, ℕ, [], ◌∷◌, Err, IfOk, OnErr, length, map};
ghost use Rattle.std.specs.List.{AllByRecursion};
ghost use Rattle.hilti_base.specs.declared.names.Place.{Place as APlace};
ghost use Rattle.hilti_code.specs.Runnable.{IsTypedProgram};
ghost use Rattle.hilti_outside.specs.Contents.{Grows, WhereTold, content};
ghost use Rattle.hilti_outside.specs.Faults.{Rose};
ghost use Rattle.hilti_top.specs.ModuleTexts.{AreModules, IsAccepted, IsRefused, IsShort};
ghost use Rattle.hilti_top.specs.ModuleTexts.{IsTooLong, IsUnread, start_of};
ghost use Rattle.hilti_top.specs.ModuleFaults.{WhereRefused};
ghost use Rattle.hilti_top.specs.Inputs.{AreAccepted, AreRefused};
ghost use Rattle.hilti_top.specs.Opening.{OpensFront, OpensRefused, OpensUntil};

use hilti_base::{Blob, Names, NoMemory, Place, Refusal};
use hilti_check::check;
use hilti_link::{Modules, link};
use hilti_outside::{FileFault, Files, read_file};
use hilti_program::Program;
use hilti_syntax::read_module;
use std::alloc::Global;

const MODULE_BYTES: usize = 1_048_576;

/// The code of a module that is too long.
const TOO_LONG: u32 = 50;

/// Why modules aren't accepted.
#[derive(Clone, Copy, Debug, PartialEq, Eq)]
pub enum ModulesFault {
    /// A file couldn't be opened or read.
    ReadFault,
    /// They are refused: the place, and the code of the rule that is broken there.
    At { place: Place, code: u32 },
    NoMemory,
}

impl From<NoMemory> for ModulesFault {
    ghost use Rattle.std.specs.Prelude.{◌≡◌};
    ghost use Rattle.hilti_top.specs.declared.modules.ModulesFault.TheVariants as faults;

    ghost from_gives = { λ _ fault. fault ≡ faults.NoMemory };

    fn from(_error: NoMemory) -> ModulesFault {
        ModulesFault::NoMemory
    }
}

impl From<Refusal> for ModulesFault {
    ghost use Rattle.std.specs.Prelude.{◌≡◌};
    ghost use Rattle.hilti_top.specs.ModuleFaults.{of_refusal};

    ghost from_gives = { λ refusal fault. fault ≡ of_refusal refusal };

    fn from(refusal: Refusal) -> ModulesFault {
        match refusal {
            Refusal::At { place, code } => ModulesFault::At { place, code },
            Refusal::NoMemory => ModulesFault::NoMemory,
        }
    }
}

/// Where a file begins.
fn start_of(file: u32) -> Place
    ensures { result ≡ start_of file }
{
    Place {
        file,
        line: 1,
        column: 1,
    }
}

/// The text of the module in a file, which has this number.
fn read_text<F: Files>(
    alloc: Global,
    files: &mut F,
    file: u32,
    name: &[u8],
) -> Result<Blob, ModulesFault>
    ensures files { F.files files.new ≡ F.files files.old }
    ensures opened { Grows (F.opened files.old) (F.opened files.new) (name.now ∷ []) }
    ensures text { IfOk result
        (λ text. WhereTold (F.files files.old) (λ all. text ≡ content all name.now)) }
    ensures short { IfOk result (λ text. IsShort text) }
    ensures refused_at { WhereRefused result
        (λ place code. (place ≡ start_of file) × (code ≡ 50)) }
    ensures refused { WhereRefused result (λ place code.
        WhereTold (F.files files.old) (λ all. 1048576 < length (content all name.now))) }
    ensures failed { result ≡ Err ModulesFault.ReadFault →
        Rose (F.faults files.old) (F.faults files.new) }
    ensures heard { result ≢ Err ModulesFault.ReadFault → F.faults files.new ≡ F.faults files.old }
{
    match read_file(alloc, files, name, MODULE_BYTES) {
        Ok(text) => Ok(text),
        Err(FileFault::Failed) => Err(ModulesFault::ReadFault),
        Err(FileFault::TooLong) => Err(ModulesFault::At {
            place: start_of(file),
            code: TOO_LONG,
        }),
        Err(FileFault::NoMemory) => Err(ModulesFault::NoMemory),
    }
}

/// The texts of the modules in files, up to the first that can't be read or is too long.
#[tactic(auto, using(crate::proofs::Opened::opens_none, crate::proofs::Opened::opens_more, crate::proofs::Opened::front_at))]
fn read_texts<F: Files>(alloc: Global, files: &mut F, names: &[Blob]) -> Result<Names, ModulesFault>
    requires { length names.now ≤ 16 }
    ensures files { F.files files.new ≡ F.files files.old }
    ensures opened { IfOk result
        (λ texts. Grows (F.opened files.old) (F.opened files.new) names.now) }
    ensures opened_until { WhereRefused result
        (OpensUntil (F.opened files.old) (F.opened files.new) names.now) }
    ensures opened_front { OnErr result
        (OpensFront (F.opened files.old) (F.opened files.new) names.now) }
    ensures texts { IfOk result
        (λ texts. WhereTold (F.files files.old) (λ all. texts ≡ map (content all) names.now)) }
    ensures count { IfOk result (λ texts. length texts ≡ length names.now) }
    ensures short { IfOk result (λ texts. AllByRecursion IsShort texts) }
    ensures refused { WhereRefused result (λ place code.
        WhereTold (F.files files.old) (λ all. IsTooLong (map (content all) names.now) place code)) }
    ensures failed { result ≡ Err ModulesFault.ReadFault →
        Rose (F.faults files.old) (F.faults files.new) }
    ensures heard { result ≢ Err ModulesFault.ReadFault → F.faults files.new ≡ F.faults files.old }
{
    let mut texts = Names::new(alloc);
    for name in names {
        let text = read_text(alloc, files, texts.len() as u32, name.bytes())?;
        texts.push(text)?;
    }
    Ok(texts)
}

/// The modules of texts, up to the first that is refused.
fn read_trees(alloc: Global, texts: &Names) -> Result<Modules, Refusal>
    requires few { length texts.now ≤ 16 }
    requires short { AllByRecursion IsShort texts.now }
    ensures modules { IfOk result (λ modules. AreModules texts.now modules) }
    ensures count { IfOk result (λ modules. length modules ≡ length texts.now) }
    ensures refused { (place : APlace) (code : ℕ) →
        result ≡ Err (Refusal.At place code) → IsUnread texts.now place code }
{
    let mut modules = Modules::new(alloc);
    for text in texts.as_slice() {
        let tree = read_module(alloc, modules.len() as u32, text.bytes())?;
        modules.push(tree)?;
    }
    Ok(modules)
}

/// The program that the modules of texts are.
fn read_program(alloc: Global, texts: &Names) -> Result<Program, Refusal>
    requires some { 1 ≤ length texts.now }
    requires few { length texts.now ≤ 16 }
    requires short { AllByRecursion IsShort texts.now }
    ensures program { IfOk result (λ program. IsAccepted texts.now program) }
    ensures typed { IfOk result IsTypedProgram }
    ensures refused { (place : APlace) (code : ℕ) →
        result ≡ Err (Refusal.At place code) → IsRefused texts.now place code }
{
    let modules = read_trees(alloc, texts)?;
    let linked = link(alloc, modules)?;
    check(alloc, linked)
}

/// The program that the modules in files are. The files are read in order, then each text is read, then all are linked,
/// and then they are checked: the first refusal answers.
#[tactic(auto, using(crate::proofs::Opened::whole_front))]
pub fn read_modules<F: Files>(
    alloc: Global,
    files: &mut F,
    names: &[Blob],
) -> Result<Program, ModulesFault>
    requires some { 1 ≤ length names.now }
    requires few { length names.now ≤ 16 }
    ensures files { F.files files.new ≡ F.files files.old }
    ensures opened { IfOk result
        (λ program. Grows (F.opened files.old) (F.opened files.new) names.now) }
    ensures opened_refused { WhereRefused result
        (OpensRefused (F.files files.old) (F.opened files.old) (F.opened files.new) names.now) }
    ensures opened_front { OpensFront (F.opened files.old) (F.opened files.new) names.now }
    ensures program { IfOk result (λ program. AreAccepted (F.files files.old) names.now program) }
    ensures typed { IfOk result IsTypedProgram }
    ensures refused { WhereRefused result (AreRefused (F.files files.old) names.now) }
    ensures failed { result ≡ Err ModulesFault.ReadFault →
        Rose (F.faults files.old) (F.faults files.new) }
    ensures heard { result ≢ Err ModulesFault.ReadFault → F.faults files.new ≡ F.faults files.old }
{
    let texts = read_texts(alloc, files, names)?;
    Ok(read_program(alloc, &texts)?)
}
