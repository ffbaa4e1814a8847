ghost use Rattle.std.specs.Prelude.{◌≡◌, ◌↔◌, ◌⊎◌, ℕ, ◌+◌, ◌-◌, ◌<◌, ◌≤◌, [], ◌++◌, length, take};
ghost use Rattle.std.specs.Prelude.{min, max, Option, Some, IfOk, OnOk, OnErr, IsErr, vec_len};
ghost use Rattle.std.specs.Prelude.{vec_capacity};
ghost use Rattle.std.specs.List.{Contains};
ghost use Rattle.std.specs.Io.{WritesAtMost};
ghost use Rattle.hilti_outside.specs.Faults.{HasCause};
ghost use Rattle.hilti_outside.specs.Contents.{Grows};
ghost use Rattle.hilti_outside.specs.Fakes.{counted};

use crate::files::Failed;
use crate::plan::Plan;
use crate::sink::Sink;
use hilti_base::{NoMemory, Numbers};
use std::alloc::Global;
use std::marker::Model;

/// A sink in memory, whose calls fail as planned. Calls of `write` are counted from 1, and take no memory: what may
/// be written is reserved before.
#[derive(Debug, Drop)]
pub struct MemSink {
    kept: Vec<u8>,
    room: usize,
    plan: Plan,
    chunk: usize,
}

impl Model for MemSink {
    ghost use Rattle.std.specs.Prelude.{◌+◌, ◌≤◌, vec_len, vec_capacity};
    ghost use Rattle.hilti_outside.specs.Fakes.{PlannedSink};

    ghost Value = { PlannedSink };

    ghost view = { λ a. record {
      written = a.kept.items;
      room = a.room;
      fails = a.plan.fails;
      calls = a.plan.calls;
      faults = a.plan.faults;
      chunk = a.chunk;
    } };

    ghost invariant = { λ a. (1 ≤ a.chunk) × (vec_len a.kept + a.room ≤ vec_capacity a.kept) };
}

impl MemSink {
    /// An empty sink with no room. A write will take at most `chunk` bytes, and the calls of the numbers in `fails`
    /// will fail.
    pub fn new(alloc: Global, chunk: usize, fails: Numbers) -> MemSink
        requires { 1 ≤ chunk }
        ensures { result ≡ record {
          written = [];
          room = 0;
          fails = fails;
          calls = 0;
          faults = 0;
          chunk = chunk;
        } }
    {
        MemSink {
            kept: Vec::new(alloc),
            room: 0,
            plan: Plan::new(fails),
            chunk,
        }
    }

    /// Makes room for `bytes` more bytes, if there isn't room for as many already.
    pub fn reserve(&mut self, bytes: usize) -> Result<(), NoMemory>
        ensures ok { OnOk result (self.new ≡ record self.old { room = max self.old.room bytes }) }
        ensures err { OnErr result (self.new ≡ self.old) }
    {
        let room = self.room.max(bytes);
        self.kept.reserve(room)?;
        self.room = room;
        Ok(())
    }

    /// All bytes that were taken.
    pub fn written(&self) -> &[u8]
        ensures { result.now ≡ self.now.written }
    {
        self.kept.as_slice()
    }
}

impl Sink for MemSink {
    ghost written = { λ s. Some s.written };

    ghost faults = { λ s. s.faults };

    /// Takes as many bytes as one write may take and as there is room for. Fails exactly where the number of the call
    /// is planned to fail, or there is a byte to take and no room.
    fn write(&mut self, piece: &[u8]) -> Result<usize, Failed>
        ensures count { WritesAtMost result piece.now }
        ensures some { 0 < length piece.now → IfOk result (λ n. 0 < n) }
        ensures ok { IfOk result (λ n. self.new.written ≡ self.old.written ++ take n piece.now) }
        ensures err { OnErr result (self.new.written ≡ self.old.written) }
        ensures cause { HasCause self.old.faults self.new.faults result }
        ensures most { IfOk result (λ n. n
            ≡ min (min self.old.chunk self.old.room) (length piece.now)) }
        ensures room { IfOk result (λ n. self.new.room + n ≡ self.old.room) }
        ensures calls { self.new.calls ≡ counted self.old.calls }
        ensures fails { IsErr result ↔
            (Contains self.old.fails self.new.calls
            ⊎ (0 < length piece.now) × (self.old.room ≡ 0)) }
        ensures faults { OnErr result (self.new.faults ≡ counted self.old.faults) }
        ensures left { OnErr result (self.new.room ≡ self.old.room) }
        ensures planned { self.new.fails ≡ self.old.fails }
        ensures chunk { self.new.chunk ≡ self.old.chunk }
    {
        if self.plan.fails_now() {
            return Err(self.plan.fault());
        }
        if self.room == 0 && !piece.is_empty() {
            return Err(self.plan.fault());
        }
        let count = self.chunk.min(self.room).min(piece.len());
        if self.kept.extend_from_slice(&piece[..count]).is_err() {
            unreachable!()
        }
        self.room -= count;
        Ok(count)
    }
}
