ghost use Rattle.std.specs.Prelude.{◌≡◌};
ghost use Rattle.hilti_words.specs.Words.{asked_by, modules_in};

use hilti_base::{Blob, Limits, Names, NoMemory};

/// A command, with the names of its files. It has 1 to 16 modules.
#[derive(Debug, Drop)]
pub enum Command {
    /// Says whether modules are accepted.
    Check {
        modules: Names,
    },
    /// Runs the program of modules over a capture, by one worker.
    One {
        limits: Limits,
        capture: Blob,
        modules: Names,
    },
}

impl Command {
    /// The names of the modules.
    pub fn modules(&self) -> &Names
        ensures { result.now ≡ modules_in (asked_by self.now) }
    {
        match self {
            Command::Check { modules } => modules,
            Command::One { modules, .. } => modules,
        }
    }
}

/// Why words aren't read.
#[derive(Clone, Copy, Debug, PartialEq, Eq)]
pub enum WordsFault {
    /// They are no command.
    Usage,
    NoMemory,
}

impl From<NoMemory> for WordsFault {
    ghost use Rattle.std.specs.Prelude.{◌≡◌};
    ghost use Rattle.hilti_words.specs.declared.command.WordsFault.TheVariants as faults;

    ghost from_gives = { λ _ fault. fault ≡ faults.NoMemory };

    fn from(_error: NoMemory) -> WordsFault {
        WordsFault::NoMemory
    }
}
