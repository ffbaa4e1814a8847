ghost use Rattle.std.specs.Prelude.{◌≡◌, ◌+◌, ◌^◌, ◌<◌, ◌↔◌, [], ◌∷◌, ◌++◌, length, take};
ghost use Rattle.std.specs.Prelude.{slice_get, slice_set, is_ok, is_some, IfOk, IfErr, IsOk};
ghost use Rattle.std.specs.Prelude.{IsSome, if◌then◌else◌};
ghost use Rattle.std.specs.Option.{option_copied, option_to_list};

use hilti_base::NoMemory;
use std::alloc::Global;
use std::collections::VecDeque;
use std::marker::Model;
use std::mem;

/// Items in order, and a version: how many changes there were since it was made. It takes its memory from the
/// allocator that it was made with. Both ends are reached in constant time.
///
/// A change is asked for only below version 2^63, so that no version comes twice.
#[derive(Debug, Drop)]
pub struct Seq<T> {
    items: VecDeque<T>,
    version: u64,
}

impl<T> Model for Seq<T> {
    ghost use Rattle.hilti_seq.specs.Versions.{Versioned, versioned_code};

    ghost Value = { Versioned T };

    ghost coded = { versioned_code T.code };

    ghost view = { λ seq. record { items = seq.items.items; version = seq.version } };
}

impl<T> Seq<T> {
    /// An empty list at version 0. It takes no memory yet.
    pub fn new(alloc: Global) -> Seq<T>
        ensures items { result.items ≡ [] }
        ensures version { result.version ≡ 0 }
    {
        Seq {
            items: VecDeque::new(alloc),
            version: 0,
        }
    }

    pub fn version(&self) -> u64
        ensures { result ≡ self.now.version }
    {
        self.version
    }

    pub fn len(&self) -> u64
        ensures { result ≡ length self.now.items }
    {
        self.items.len() as u64
    }

    /// The item at a place, counted from 0; `None` exactly past the end.
    pub fn get(&self, at: u64) -> Option<&T>
        ensures { option_copied result ≡ slice_get self.now.items at }
    {
        self.items.get(at as usize)
    }

    /// Adds an item at the end. Without memory nothing changes, and the item comes back.
    pub fn push_back(&mut self, item: T) -> Result<(), (T, NoMemory)>
        requires { self.old.version < 2 ^ 63 }
        ensures items { self.new.items
            ≡ (if is_ok result then self.old.items ++ item ∷ [] else self.old.items) }
        ensures version { self.new.version
            ≡ (if is_ok result then self.old.version + 1 else self.old.version) }
        ensures refused { IfErr result (λ refused. refused.0 ≡ item) }
    {
        match self.items.push_back(item) {
            Ok(()) => {
                self.version += 1;
                Ok(())
            }
            Err(failed) => Err((failed.value, NoMemory)),
        }
    }

    /// Adds an item at the front. Without memory nothing changes, and the item comes back.
    pub fn push_front(&mut self, item: T) -> Result<(), (T, NoMemory)>
        requires { self.old.version < 2 ^ 63 }
        ensures items { self.new.items
            ≡ (if is_ok result then item ∷ self.old.items else self.old.items) }
        ensures version { self.new.version
            ≡ (if is_ok result then self.old.version + 1 else self.old.version) }
        ensures refused { IfErr result (λ refused. refused.0 ≡ item) }
    {
        match self.items.push_front(item) {
            Ok(()) => {
                self.version += 1;
                Ok(())
            }
            Err(failed) => Err((failed.value, NoMemory)),
        }
    }

    /// Takes the last item; `None` exactly where the list is empty, and nothing changes then.
    pub fn pop_back(&mut self) -> Option<T>
        requires { self.old.version < 2 ^ 63 }
        ensures items { self.old.items ≡ self.new.items ++ option_to_list result }
        ensures some { IsSome result ↔ (0 < length self.old.items) }
        ensures version { self.new.version
            ≡ (if is_some result then self.old.version + 1 else self.old.version) }
    {
        match self.items.pop_back() {
            Some(item) => {
                self.version += 1;
                Some(item)
            }
            None => None,
        }
    }

    /// Takes the first item; `None` exactly where the list is empty, and nothing changes then.
    pub fn pop_front(&mut self) -> Option<T>
        requires { self.old.version < 2 ^ 63 }
        ensures items { self.old.items ≡ option_to_list result ++ self.new.items }
        ensures some { IsSome result ↔ (0 < length self.old.items) }
        ensures version { self.new.version
            ≡ (if is_some result then self.old.version + 1 else self.old.version) }
    {
        match self.items.pop_front() {
            Some(item) => {
                self.version += 1;
                Some(item)
            }
            None => None,
        }
    }

    /// Puts an item at a place, and gives the one that stood there. `Err` gives the item back exactly where the place
    /// is past the end, and nothing changes then.
    pub fn set(&mut self, at: u64, item: T) -> Result<T, T>
        requires { self.old.version < 2 ^ 63 }
        ensures ok { IsOk result ↔ (at < length self.old.items) }
        ensures old { IfOk result (λ old. slice_get self.old.items at ≡ Some old) }
        ensures items { self.new.items
            ≡ (if is_ok result then slice_set self.old.items at item else self.old.items) }
        ensures version { self.new.version
            ≡ (if is_ok result then self.old.version + 1 else self.old.version) }
        ensures refused { IfErr result (λ refused. refused ≡ item) }
    {
        let place = at as usize;
        if self.items.len() <= place {
            return Err(item);
        }
        let old = mem::replace(&mut self.items[place], item);
        self.version += 1;
        Ok(old)
    }
}

impl<T: Drop> Seq<T> {
    /// Drops the items from a length on. It counts as a change also where nothing is dropped.
    pub fn truncate(&mut self, len: u64)
        requires { self.old.version < 2 ^ 63 }
        ensures items { self.new.items ≡ take len self.old.items }
        ensures version { self.new.version ≡ self.old.version + 1 }
    {
        self.items.truncate(len as usize);
        self.version += 1;
    }
}
