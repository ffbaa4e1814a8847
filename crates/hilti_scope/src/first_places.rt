//! Words with the places at which they were noted first.
ghost use Rattle.std.specs.Prelude.{◌≡◌, ℕ, cond, bytes_eq, List, [], None, Some, OnOk, OnErr};
ghost use Rattle.std.specs.Option.{option_or};
ghost use Rattle.hilti_scope.specs.FirstPlaces.{place_of};

use hilti_base::NoMemory;
use indexmap::IndexMap;
use std::alloc::Global;
use std::marker::Model;

/// Words, each with the place at which it was noted first.
#[derive(Drop)]
pub struct FirstPlaces {
    places: IndexMap<Vec<u8>, usize>,
}

impl Model for FirstPlaces {
    ghost use Rattle.std.specs.Prelude.{ℕ, List, map};

    ghost Value = { List (List ℕ × ℕ) };

    ghost view = { λ noted. map (λ entry. (entry.0.items, entry.1)) noted.places.entries };
}

impl FirstPlaces {
    /// No words. It takes no memory yet.
    pub fn new(alloc: Global) -> FirstPlaces
        ensures { result ≡ [] }
    {
        FirstPlaces {
            places: IndexMap::new(alloc),
        }
    }

    /// Notes a word, unless it was noted before. Without memory nothing changes.
    pub fn note(&mut self, word: &[u8], place: usize) -> Result<(), NoMemory>
        ensures noted { OnOk result ((bytes : List ℕ) → place_of self.new bytes ≡ option_or
            (place_of self.old bytes) (cond (bytes_eq word.now bytes) (Some place) None)) }
        ensures err { OnErr result (self.new ≡ self.old) }
    {
        if self.places.contains_key(word) {
            return Ok(());
        }
        let key = Vec::from_slice(*self.places.allocator(), word)?;
        self.places.insert(key, place)?;
        Ok(())
    }

    /// The place at which a word was noted first.
    pub fn place(&self, word: &[u8]) -> Option<usize>
        ensures { result ≡ place_of self.now word.now }
    {
        let place = self.places.get(word)?;
        Some(*place)
    }
}
