ghost use Rattle.std.specs.Prelude.{◌≡◌, ◌∷◌, IfOk, Err, codes};
ghost use Rattle.hilti_words.specs.Words.{IsAsked, IsCommand, asked_by};

use crate::command::{Command, WordsFault};
use crate::name::{are_module_names, copy_names};
use crate::reader::Reader;
use hilti_base::Blob;
use std::alloc::Global;

/// The command `check` with these words behind it. `Usage` comes exactly where that's none.
fn read_check(alloc: Global, words: &[Blob]) -> Result<Command, WordsFault>
    ensures command { IfOk result
        (λ command. IsAsked (codes "check" ∷ words.now) (asked_by command)) }
    ensures usage { result ≡ Err WordsFault.Usage → ¬ (IsCommand (codes "check" ∷ words.now)) }
{
    if !are_module_names(words) {
        return Err(WordsFault::Usage);
    }
    let modules = copy_names(alloc, words)?;
    Ok(Command::Check { modules })
}

/// The command `one` with these words behind it. `Usage` comes exactly where that's none.
fn read_one(alloc: Global, words: &[Blob]) -> Result<Command, WordsFault>
    ensures command { IfOk result
        (λ command. IsAsked (codes "one" ∷ words.now) (asked_by command)) }
    ensures usage { result ≡ Err WordsFault.Usage → ¬ (IsCommand (codes "one" ∷ words.now)) }
{
    let mut reader = Reader::new(alloc);
    for word in words {
        reader.read(alloc, word.bytes())?;
    }
    let command = reader.finish()?;
    Ok(command)
}

/// The command that the words are. `Usage` comes exactly where they are none; a word that isn't UTF-8 is part of none.
/// The options of `one` stand in any place behind the command, each at most once, as `--fuel F` or `--fuel=F`.
pub fn read_words(alloc: Global, words: &[Blob]) -> Result<Command, WordsFault>
    ensures command { IfOk result (λ command. IsAsked words.now (asked_by command)) }
    ensures usage { result ≡ Err WordsFault.Usage → ¬ (IsCommand words.now) }
{
    let [command, behind @ ..] = words else {
        return Err(WordsFault::Usage);
    };
    if command.bytes() == b"check".as_slice() {
        let command = read_check(alloc, behind)?;
        Ok(command)
    } else if command.bytes() == b"one".as_slice() {
        let command = read_one(alloc, behind)?;
        Ok(command)
    } else {
        Err(WordsFault::Usage)
    }
}
