ghost use Rattle.std.specs.Prelude.{◌≡◌, min, length, take, ◌++◌, [], OnOk, OnErr, is_some};
ghost use Rattle.std.specs.FinMap.{empty, insert, get};
ghost use Rattle.hilti_outside.specs.Contents.{content};
ghost use Rattle.hilti_outside.specs.Shelf.{IsFoundAt};

use hilti_base::{Blob, NoMemory};
use std::alloc::Global;
use std::marker::Model;

/// A file by its name.
#[derive(Debug, Drop)]
struct Entry {
    name: Blob,
    bytes: Blob,
}

/// How far an entry was read.
#[derive(Clone, Copy, Debug)]
struct Spot {
    entry: usize,
    read: usize,
}

/// Named files in memory, one of which may be current. A file that is replaced stays in its place, so that it can
/// be read to its end.
#[derive(Debug, Drop)]
pub struct Shelf {
    entries: Vec<Entry>,
    current: Option<Spot>,
}

impl Model for Shelf {
    ghost use Rattle.hilti_outside.specs.Fakes.{Shelved, shelved_code};

    ghost Value = { Shelved };

    ghost coded = { shelved_code };

    ghost use Rattle.hilti_outside.specs.Shelf.{files_of, rest_at, IsWithin};

    ghost view = { λ a. record {
      files = files_of a.entries.items;
      rest = rest_at a.entries.items a.current;
    } };

    ghost invariant = { λ a. IsWithin a.entries.items a.current };
}

impl Shelf {
    /// No files.
    pub fn new(alloc: Global) -> Shelf
        ensures { result ≡ record { files = empty; rest = [] } }
    {
        Shelf {
            entries: Vec::new(alloc),
            current: None,
        }
    }

    /// Adds or replaces a file. The current one stays as it is.
    pub fn put(&mut self, name: &[u8], bytes: &[u8]) -> Result<(), NoMemory>
        ensures ok { OnOk result
            (self.new ≡ record self.old { files = insert self.old.files name.now bytes.now }) }
        ensures err { OnErr result (self.new ≡ self.old) }
    {
        let alloc = *self.entries.allocator();
        let name = Blob::of(alloc, name)?;
        let bytes = Blob::of(alloc, bytes)?;
        self.entries.push(Entry { name, bytes })?;
        Ok(())
    }

    /// Makes the named file current, with all its bytes unread, and says whether there is one. Where there is none, no
    /// file is current.
    pub fn open(&mut self, name: &[u8]) -> bool
        ensures found { result ≡ is_some (get self.old.files name.now) }
        ensures files { self.new.files ≡ self.old.files }
        ensures rest { self.new.rest ≡ content self.old.files name.now }
    {
        self.current = find(self.entries.as_slice(), name).map(|entry| Spot { entry, read: 0 });
        self.current.is_some()
    }

    /// Leaves no file current.
    pub fn close(&mut self)
        ensures { self.new ≡ record self.old { rest = [] } }
    {
        self.current = None;
    }

    /// Moves at most `most` unread bytes to the front of `into`, and says how many.
    pub fn read(&mut self, into: &mut [u8], most: usize) -> usize
        ensures count { result ≡ min (min most (length into.old)) (length self.old.rest) }
        ensures files { self.new.files ≡ self.old.files }
        ensures moved { self.old.rest ≡ take result into.new ++ self.new.rest }
    {
        let Some(spot) = &mut self.current else {
            return 0;
        };
        let rest = &self.entries[spot.entry].bytes.bytes()[spot.read..];
        let count = move_front(rest, into, most);
        spot.read += count;
        count
    }
}

/// The place of the newest entry of a name.
fn find(entries: &[Entry], name: &[u8]) -> Option<usize>
    ensures { IsFoundAt entries.now name.now result }
{
    let mut found = None;
    for (at, entry) in entries.iter().enumerate() {
        if entry.name.bytes() == name {
            found = Some(at);
        }
    }
    found
}

/// Moves at most `most` bytes of a text to the front of `into`, and says how many.
fn move_front(text: &[u8], into: &mut [u8], most: usize) -> usize
    ensures count { result ≡ min (min most (length into.old)) (length text.now) }
    ensures moved { take result into.new ≡ take result text.now }
{
    let count = most.min(into.len()).min(text.len());
    into[..count].copy_from_slice(&text[..count]);
    count
}
