ghost use Rattle.std.specs.Prelude.{◌≡◌, ℕ, List, [], ◌∷◌, ◌++◌, codes, IfOk, OnOk, Err};
ghost use Rattle.hilti_words.specs.Reading.{AreFiles, ArePieces, HasRead};
ghost use Rattle.hilti_words.specs.Words.{IsAsked, IsCommand, asked_by};

use crate::command::{Command, WordsFault};
use crate::name::{MODULES, is_name};
use crate::options::Options;
use crate::setting::Setting;
use hilti_base::{Blob, Names, NoMemory};
use std::alloc::Global;

/// Reads the words behind `one`, one by one.
#[derive(Debug, Drop)]
pub struct Reader {
    /// The setting whose value the next word is.
    awaited: Option<Setting>,
    options: Options,
    capture: Option<Blob>,
    modules: Names,
}

impl Reader {
    pub fn new(alloc: Global) -> Reader
        ensures { HasRead [] result }
    {
        Reader {
            awaited: None,
            options: Options::new(),
            capture: None,
            modules: Names::new(alloc),
        }
    }

    /// Reads the next word. `Usage` comes exactly where no words behind it make a command.
    pub fn read(&mut self, alloc: Global, word: &[u8]) -> Result<(), WordsFault>
        ensures ok { OnOk result ((words : List (List ℕ)) →
            HasRead words self.old → HasRead (words ++ word.now ∷ []) self.new) }
        ensures usage { result ≡ Err WordsFault.Usage → (words more : List (List ℕ)) →
            HasRead words self.old → ¬ (ArePieces (words ++ word.now ∷ more)) }
    {
        if let Some(setting) = self.awaited {
            self.awaited = None;
            self.options.set(setting, word)?;
            return Ok(());
        }
        if let Some(setting) = Setting::of_option(word) {
            self.awaited = Some(setting);
            return Ok(());
        }
        if let Some((setting, value)) = Setting::of_joined(word) {
            self.options.set(setting, value)?;
            return Ok(());
        }
        if !is_name(word) {
            return Err(WordsFault::Usage);
        }
        let name = Blob::of(alloc, word)?;
        self.add(name)?;
        Ok(())
    }

    /// Adds the name of a file: the first is the capture's, and the others are the modules'.
    fn add(&mut self, name: Blob) -> Result<(), NoMemory>
        ensures same_options { self.new.options ≡ self.old.options }
        ensures same_awaited { self.new.awaited ≡ self.old.awaited }
        ensures added { OnOk result ((positions : List (List ℕ)) →
            AreFiles positions self.old.capture self.old.modules →
            AreFiles (positions ++ name ∷ []) self.new.capture self.new.modules) }
    {
        if self.capture.is_none() {
            self.capture = Some(name);
        } else {
            self.modules.push(name)?;
        }
        Ok(())
    }

    /// The command that the words are. `Usage` comes exactly where they are none.
    pub fn finish(self) -> Result<Command, WordsFault>
        ensures command { IfOk result (λ command. (words : List (List ℕ)) →
            HasRead words self → IsAsked (codes "one" ∷ words) (asked_by command)) }
        ensures usage { result ≡ Err WordsFault.Usage → (words : List (List ℕ)) →
            HasRead words self → ¬ (IsCommand (codes "one" ∷ words)) }
    {
        let Reader {
            awaited,
            options,
            capture,
            modules,
        } = self;
        if awaited.is_some() || modules.is_empty() || modules.len() > MODULES {
            return Err(WordsFault::Usage);
        }
        let Some(capture) = capture else {
            return Err(WordsFault::Usage);
        };
        let Some(limits) = options.limits() else {
            return Err(WordsFault::Usage);
        };
        Ok(Command::One {
            limits,
            capture,
            modules,
        })
    }
}
