ghost use Rattle.std.specs.Prelude.{◌≡◌, [], ◌∷◌, ◌++◌, Some, None, IfSome, IsNone, OnOk};
ghost use Rattle.hilti_outside.specs.Contents.{Grows};

use hilti_base::{Blob, Names, NoMemory};
use std::alloc::Global;
use std::marker::Model;

/// The names that were opened, one after another, for as long as there was memory to keep them.
#[derive(Debug, Drop)]
pub struct Opened {
    alloc: Global,
    names: Option<Names>,
}

impl Model for Opened {
    ghost use Rattle.std.specs.Prelude.{ℕ, List, Option};

    ghost Value = { Option (List (List ℕ)) };

    ghost view = { λ a. a.names };
}

impl Opened {
    /// No names.
    pub fn new(alloc: Global) -> Opened
        ensures { result ≡ Some [] }
    {
        Opened {
            alloc,
            names: Some(Names::new(alloc)),
        }
    }

    /// Adds a name. Where there is no memory to keep it, all are lost.
    pub fn add(&mut self, name: &[u8])
        ensures { Grows self.old self.new (name.now ∷ []) }
    {
        if let Some(names) = &mut self.names {
            if push_copy(self.alloc, names, name).is_err() {
                self.names = None;
            }
        }
    }

    /// The names, where none of them was lost.
    pub fn names(&self) -> Option<&Names>
        ensures some { IfSome result (λ names. self.now ≡ Some names.now) }
        ensures none { IsNone result → self.now ≡ None }
    {
        self.names.as_ref()
    }
}

/// Adds a copy of a name.
fn push_copy(alloc: Global, names: &mut Names, name: &[u8]) -> Result<(), NoMemory>
    ensures { OnOk result (names.new ≡ names.old ++ name.now ∷ []) }
{
    names.push(Blob::of(alloc, name)?)
}
