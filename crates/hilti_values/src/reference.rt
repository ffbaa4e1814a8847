ghost use Rattle.std.specs.Prelude.{◌≡◌};

use std::marker::Model;

/// A reference to an object of a heap, which contracts see as the object's serial alone. The place is where the heap
/// that made the reference keeps the object: a hint, by which the object is found at once.
#[derive(Debug, Drop)]
pub struct Reference {
    serial: u64,
    place: usize,
}

impl Model for Reference {
    ghost use Rattle.std.specs.Prelude.{ℕ};

    ghost Value = { ℕ };

    ghost view = { λ reference. reference.serial };
}

impl Reference {
    /// A reference to the object of a serial, with a hint where it is kept.
    pub fn new(serial: u64, place: usize) -> Reference
        ensures { result ≡ serial }
    {
        Reference { serial, place }
    }

    pub fn serial(&self) -> u64
        ensures { result ≡ self.now }
    {
        self.serial
    }

    /// Where the object is kept, as the heap said when it made the reference.
    pub fn place(&self) -> usize {
        self.place
    }

    /// Another reference to the same object, with the same hint.
    pub fn share(&self) -> Reference
        ensures { result ≡ self.now }
    {
        Reference {
            serial: self.serial,
            place: self.place,
        }
    }
}
