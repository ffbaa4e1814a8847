ghost use Rattle.std.specs.Prelude.{◌≡◌, refl, ℕ, ◌<◌, ◌≤◌, [], length, min, Option, Some, None};
ghost use Rattle.std.specs.Prelude.{IsOk, IfOk, OnOk, OnErr};
ghost use Rattle.std.specs.FinMap.{empty, insert};
ghost use Rattle.std.specs.Io.{ReadsAtMost};
ghost use Rattle.std.specs.Io.KnownBytes.{ReadConsumes};
ghost use Rattle.hilti_outside.specs.Faults.{HasCause};
ghost use Rattle.hilti_outside.specs.Contents.{FileMap, Holds, content};

use crate::files::{Failed, Files};
use crate::shelf::Shelf;
use hilti_base::NoMemory;
use std::alloc::Global;
use std::marker::Model;

/// Files in memory whose calls never fail. An absent name is an empty file, and a read gives as much as fits.
#[derive(Debug, Drop)]
pub struct SureFiles {
    shelf: Shelf,
}

impl Model for SureFiles {
    ghost use Rattle.hilti_outside.specs.Fakes.{Shelved, shelved_code};

    ghost Value = { Shelved };

    ghost coded = { shelved_code };

    ghost view = { λ a. a.shelf };
}

impl SureFiles {
    /// No files.
    pub fn new(alloc: Global) -> SureFiles
        ensures { result ≡ record { files = empty; rest = [] } }
    {
        SureFiles {
            shelf: Shelf::new(alloc),
        }
    }

    /// Adds or replaces a file. The current one stays as it is.
    pub fn put_file(&mut self, name: &[u8], bytes: &[u8]) -> Result<(), NoMemory>
        ensures ok { OnOk result
            (self.new ≡ record self.old { files = insert self.old.files name.now bytes.now }) }
        ensures err { OnErr result (self.new ≡ self.old) }
    {
        self.shelf.put(name, bytes)
    }
}

impl Files for SureFiles {
    ghost files = { λ s. Some s.files };

    ghost rest = { λ s. Some s.rest };

    ghost opened = { λ _. None };

    ghost faults = { λ _. 0 };

    ghost told = { λ s all e. refl };

    /// Never fails.
    fn open_file(&mut self, name: &[u8]) -> Result<(), Failed>
        ensures files { self.new.files ≡ self.old.files }
        ensures ok { IsOk result }
        ensures rest { self.new.rest ≡ content self.old.files name.now }
    {
        self.shelf.open(name);
        Ok(())
    }

    /// Never fails, and gives as many bytes as are left and as fit.
    fn read(&mut self, into: &mut [u8]) -> Result<usize, Failed>
        requires { 0 < length into.old }
        ensures files { self.new.files ≡ self.old.files }
        ensures count { ReadsAtMost result into.new }
        ensures moved { ReadConsumes (Some self.old.rest) (Some self.new.rest) result into.new }
        ensures ok { IsOk result }
        ensures most { IfOk result (λ n. n ≡ min (length into.old) (length self.old.rest)) }
    {
        let most = into.len();
        Ok(self.shelf.read(into, most))
    }
}
