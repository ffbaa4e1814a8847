ghost use Rattle.std.specs.Prelude.{◌≡◌, ◌↔◌, ◌⊎◌, refl, ℕ, ◌<◌, ◌≤◌, [], length, min, ◌∷◌, Option};
ghost use Rattle.std.specs.Prelude.{Some, None, IsNone, IfSome, IfOk, OnOk, OnErr, IsErr};
ghost use Rattle.std.specs.List.{Contains};
ghost use Rattle.std.specs.FinMap.{empty, insert, get};
ghost use Rattle.std.specs.Io.{ReadsAtMost};
ghost use Rattle.std.specs.Io.KnownBytes.{ReadConsumes};
ghost use Rattle.hilti_outside.specs.Faults.{HasCause};
ghost use Rattle.hilti_outside.specs.Contents.{FileMap, Grows, Holds, content};
ghost use Rattle.hilti_outside.specs.Fakes.{counted};

use crate::files::{Failed, Files};
use crate::opened::Opened;
use crate::plan::Plan;
use crate::shelf::Shelf;
use hilti_base::{Names, NoMemory, Numbers};
use std::alloc::Global;
use std::marker::Model;

/// Files in memory, whose calls fail as planned. Calls of `open_file` and `read` are counted together from 1.
#[derive(Debug, Drop)]
pub struct MemFiles {
    shelf: Shelf,
    plan: Plan,
    chunk: usize,
    opened: Opened,
}

impl Model for MemFiles {
    ghost use Rattle.std.specs.Prelude.{◌≤◌};
    ghost use Rattle.hilti_outside.specs.Fakes.{PlannedFiles, planned_files_code};

    ghost Value = { PlannedFiles };

    ghost coded = { planned_files_code };

    ghost view = { λ a. record {
      files = a.shelf.files;
      rest = a.shelf.rest;
      opened = a.opened;
      fails = a.plan.fails;
      calls = a.plan.calls;
      faults = a.plan.faults;
      chunk = a.chunk;
    } };

    ghost invariant = { λ a. 1 ≤ a.chunk };
}

impl MemFiles {
    /// No files. A read will give at most `chunk` bytes, and the calls of the numbers in `fails` will fail.
    pub fn new(alloc: Global, chunk: usize, fails: Numbers) -> MemFiles
        requires { 1 ≤ chunk }
        ensures { result ≡ record {
          files = empty;
          rest = [];
          opened = Some [];
          fails = fails;
          calls = 0;
          faults = 0;
          chunk = chunk;
        } }
    {
        MemFiles {
            shelf: Shelf::new(alloc),
            plan: Plan::new(fails),
            chunk,
            opened: Opened::new(alloc),
        }
    }

    /// Adds or replaces a file. The current one stays as it is, and no call is counted.
    pub fn put_file(&mut self, name: &[u8], bytes: &[u8]) -> Result<(), NoMemory>
        ensures ok { OnOk result
            (self.new ≡ record self.old { files = insert self.old.files name.now bytes.now }) }
        ensures err { OnErr result (self.new ≡ self.old) }
    {
        self.shelf.put(name, bytes)
    }

    /// The names that were opened, one after another, also those that failed to open; none where there was no memory
    /// to keep one of them.
    pub fn opened(&self) -> Option<&Names>
        ensures names { IfSome result (λ names. self.now.opened ≡ Some names.now) }
        ensures lost { IsNone result → self.now.opened ≡ None }
    {
        self.opened.names()
    }
}

impl Files for MemFiles {
    ghost files = { λ s. Some s.files };

    ghost rest = { λ s. Some s.rest };

    ghost opened = { λ s. s.opened };

    ghost faults = { λ s. s.faults };

    ghost told = { λ s all e. refl };

    /// Fails exactly where the number of the call is planned to fail, or the name is absent.
    fn open_file(&mut self, name: &[u8]) -> Result<(), Failed>
        ensures files { self.new.files ≡ self.old.files }
        ensures ok { OnOk result (self.new.rest ≡ content self.old.files name.now) }
        ensures err { OnErr result (self.new.rest ≡ []) }
        ensures opened { Grows self.old.opened self.new.opened (name.now ∷ []) }
        ensures cause { HasCause self.old.faults self.new.faults result }
        ensures calls { self.new.calls ≡ counted self.old.calls }
        ensures fails { IsErr result ↔
            (Contains self.old.fails self.new.calls ⊎ IsNone (get self.old.files name.now)) }
        ensures faults { OnErr result (self.new.faults ≡ counted self.old.faults) }
        ensures planned { self.new.fails ≡ self.old.fails }
        ensures chunk { self.new.chunk ≡ self.old.chunk }
    {
        self.opened.add(name);
        if self.plan.fails_now() {
            self.shelf.close();
            return Err(self.plan.fault());
        }
        if self.shelf.open(name) {
            Ok(())
        } else {
            Err(self.plan.fault())
        }
    }

    /// Gives as many bytes as are left, as fit and as one read may give. Fails exactly where the number of the call
    /// is planned to fail.
    fn read(&mut self, into: &mut [u8]) -> Result<usize, Failed>
        requires { 0 < length into.old }
        ensures files { self.new.files ≡ self.old.files }
        ensures count { ReadsAtMost result into.new }
        ensures opened { self.new.opened ≡ self.old.opened }
        ensures moved { ReadConsumes (Some self.old.rest) (Some self.new.rest) result into.new }
        ensures cause { HasCause self.old.faults self.new.faults result }
        ensures most { IfOk result
            (λ n. n ≡ min (min self.old.chunk (length into.old)) (length self.old.rest)) }
        ensures calls { self.new.calls ≡ counted self.old.calls }
        ensures fails { IsErr result ↔ Contains self.old.fails self.new.calls }
        ensures faults { OnErr result (self.new.faults ≡ counted self.old.faults) }
        ensures planned { self.new.fails ≡ self.old.fails }
        ensures chunk { self.new.chunk ≡ self.old.chunk }
    {
        if self.plan.fails_now() {
            return Err(self.plan.fault());
        }
        Ok(self.shelf.read(into, self.chunk))
    }
}
