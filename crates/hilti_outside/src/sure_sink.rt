ghost use Rattle.std.specs.Prelude.{◌≡◌, ◌==◌, ℕ, ◌+◌, ◌-◌, ◌^◌, ◌<◌, ◌≤◌, [], ◌++◌, length, take};
ghost use Rattle.std.specs.Prelude.{min, Option, Some, None, if◌then◌else◌, IfOk, OnOk, OnErr};
ghost use Rattle.std.specs.Prelude.{IsOk, vec_len, vec_capacity};
ghost use Rattle.std.specs.Io.{WritesAtMost};
ghost use Rattle.hilti_outside.specs.Faults.{HasCause};
ghost use Rattle.hilti_outside.specs.Contents.{Grows};
ghost use Rattle.hilti_outside.specs.Fakes.{told_where};

use crate::files::Failed;
use crate::sink::Sink;
use hilti_base::NoMemory;
use std::alloc::Global;
use std::marker::Model;

/// A sink in memory whose calls never fail. It keeps as many bytes as it has room for, and counts the others alone.
#[derive(Debug, Drop)]
pub struct SureSink {
    kept: Vec<u8>,
    room: usize,
    lost: u64,
}

impl Model for SureSink {
    ghost use Rattle.std.specs.Prelude.{◌+◌, ◌≤◌, vec_len, vec_capacity};
    ghost use Rattle.hilti_outside.specs.Fakes.{KeptBytes};

    ghost Value = { KeptBytes };

    ghost view = { λ a. record { kept = a.kept.items; room = a.room; lost = a.lost } };

    ghost invariant = { λ a. vec_len a.kept + a.room ≤ vec_capacity a.kept };
}

impl SureSink {
    /// An empty sink that keeps at most `room` bytes.
    pub fn new(alloc: Global, room: usize) -> Result<SureSink, NoMemory>
        ensures { IfOk result (λ sink. sink ≡ record { kept = []; room = room; lost = 0 }) }
    {
        Ok(SureSink {
            kept: Vec::with_capacity(alloc, room)?,
            room,
            lost: 0,
        })
    }

    /// The bytes that were kept.
    pub fn written(&self) -> &[u8]
        ensures { result.now ≡ self.now.kept }
    {
        self.kept.as_slice()
    }

    /// How many bytes were taken and not kept. It stays at `u64::MAX` once it is there.
    pub fn lost(&self) -> u64
        ensures { result ≡ self.now.lost }
    {
        self.lost
    }
}

impl Sink for SureSink {
    ghost written = { λ s. told_where (s.lost == 0) s.kept };

    ghost faults = { λ _. 0 };

    /// Takes the whole piece, and keeps as much of its front as there is room for.
    fn write(&mut self, piece: &[u8]) -> Result<usize, Failed>
        ensures count { WritesAtMost result piece.now }
        ensures whole { result ≡ Ok (length piece.now) }
        ensures ok { Grows
            (told_where (self.old.lost == 0) self.old.kept)
            (told_where (self.new.lost == 0) self.new.kept)
            piece.now }
        ensures kept { self.new.kept ≡ self.old.kept ++ take self.old.room piece.now }
        ensures room { self.new.room ≡ self.old.room - length piece.now }
        ensures lost { self.new.lost ≡
            min (self.old.lost + (length piece.now - self.old.room)) (2 ^ 64 - 1) }
    {
        let count = self.room.min(piece.len());
        if self.kept.extend_from_slice(&piece[..count]).is_err() {
            unreachable!()
        }
        self.room -= count;
        let more = piece.len() - count;
        self.lost = self.lost.saturating_add(more as u64);
        Ok(piece.len())
    }
}
