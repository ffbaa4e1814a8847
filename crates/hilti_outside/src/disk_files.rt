ghost use Rattle.std.specs.Prelude.{◌≡◌, ◌<◌, [], length, None, OnErr};
ghost use Rattle.std.specs.Io.{ReadsAtMost};
ghost use Rattle.std.specs.Io.KnownBytes.{ReadConsumes};
ghost use Rattle.hilti_outside.specs.Contents.{Holds};
ghost use Rattle.hilti_outside.specs.Faults.{HasCause};
ghost use Rattle.hilti_outside.specs.Fakes.{counted};

use crate::count::one_more;
use crate::files::{Failed, Files};
use crate::interrupted;
use std::marker::Model;
use std::rt;

/// Files of the system. A name is a path in UTF-8, and another one can't be opened. A call that is interrupted is
/// tried again at most 16 times. What is unread of a file is told where its reader tells it.
#[derive(Drop)]
pub struct DiskFiles<R: rt::Files> {
    system: R,
    current: Option<R::File>,
    faults: u64,
}

impl<R: rt::Files> Model for DiskFiles<R> {
    ghost use Rattle.hilti_outside.specs.System.{SystemFiles, left_of};

    ghost Value = { SystemFiles };

    ghost view = { λ a. record { rest = left_of R.File.remaining a.current; faults = a.faults } };
}

impl<R: rt::Files> DiskFiles<R> {
    /// The files of the system, as a `main` has it: `DiskFiles::new(&rt)`.
    pub fn new(system: R) -> DiskFiles<R>
        ensures { result ≡ record { rest = Some []; faults = 0 } }
    {
        DiskFiles {
            system,
            current: None,
            faults: 0,
        }
    }
}

impl<R: rt::Files> Files for DiskFiles<R> {
    ghost files = { λ _. None };

    ghost rest = { λ s. s.rest };

    ghost opened = { λ _. None };

    ghost faults = { λ s. s.faults };

    ghost told = { λ s all e. Prim.cc };

    fn open_file(&mut self, name: &[u8]) -> Result<(), Failed>
        ensures err { OnErr result (Holds self.new.rest []) }
        ensures cause { HasCause self.old.faults self.new.faults result }
        ensures faults { OnErr result (self.new.faults ≡ counted self.old.faults) }
    {
        self.current = None;
        match opened(&self.system, name) {
            Ok(file) => {
                self.current = Some(file);
                Ok(())
            }
            Err(error) => {
                self.faults = one_more(self.faults);
                Err(error)
            }
        }
    }

    /// A folder can be opened, and fails here.
    fn read(&mut self, into: &mut [u8]) -> Result<usize, Failed>
        requires { 0 < length into.old }
        ensures count { ReadsAtMost result into.new }
        ensures moved { ReadConsumes self.old.rest self.new.rest result into.new }
        ensures cause { HasCause self.old.faults self.new.faults result }
        ensures faults { OnErr result (self.new.faults ≡ counted self.old.faults) }
    {
        let Some(file) = &mut self.current else {
            return Ok(0);
        };
        match interrupted::read(file, into) {
            Ok(count) => Ok(count),
            Err(error) => {
                self.faults = one_more(self.faults);
                Err(error)
            }
        }
    }
}

/// A file that is opened to be read, if its name is a path and the system opens it.
fn opened<R: rt::Files>(system: &R, name: &[u8]) -> Result<R::File, Failed> {
    match str::from_utf8(name) {
        Ok(path) => interrupted::open(system, path),
        Err(_) => Err(Failed),
    }
}
