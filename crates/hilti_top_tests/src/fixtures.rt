//! Commands over files in memory.
use hilti_base::{Blob, Names, NoMemory, Numbers};
use hilti_outside::{MemFiles, MemSink};
use hilti_top::{Status, hilti_call};
use std::alloc::{AllocError, Global};

pub const HEADER: &[u8] = &[
    0xd4, 0xc3, 0xb2, 0xa1, 2, 0, 4, 0, 0, 0, 0, 0, 0, 0, 0, 0, 0, 0, 4, 0, 1, 0, 0, 0,
];

pub const RECORD: &[u8] = &[1, 0, 0, 0, 2, 0, 0, 0, 2, 0, 0, 0, 2, 0, 0, 0, b'h', b'i'];

pub const MODULE: &[u8] =
    b"module Main\nvoid packet(time t, bytes d) {\n  print t d\n  return.void\n}\n";

/// What `one` writes for the module above over one packet.
pub const REPORT: &[u8] = b"thread 0: 1 calls\n  1.000002000 hi\ntotal: 1 calls, 1 segments\n";

/// How the outside behaves: the bytes of a read, the calls of files that fail, the bytes of a write, and the writes
/// that fail.
#[derive(Clone, Copy)]
pub struct Outside<'a> {
    pub read: usize,
    pub failing_reads: &'a [u64],
    pub write: usize,
    pub failing_writes: &'a [u64],
}

pub const SURE: Outside<'static> = Outside {
    read: 65536,
    failing_reads: &[],
    write: 65536,
    failing_writes: &[],
};

/// A command: its first words, the pieces of the capture `c`, and the texts of the modules `m`, `n` and `o`, whose
/// names are its last words.
#[derive(Clone, Copy)]
pub struct Command<'a> {
    pub words: &'a [&'a [u8]],
    pub capture: &'a [&'a [u8]],
    pub modules: &'a [&'a [u8]],
}

fn numbers(alloc: Global, numbers: &[u64]) -> Result<Numbers, NoMemory> {
    let mut all = Numbers::new(alloc);
    for n in numbers {
        all.push(*n)?;
    }
    Ok(all)
}

fn joined(alloc: Global, pieces: &[&[u8]]) -> Result<Vec<u8>, AllocError> {
    let mut bytes = Vec::new(alloc);
    for piece in pieces {
        bytes.extend_from_slice(piece)?;
    }
    Ok(bytes)
}

fn words_of(alloc: Global, command: &Command<'_>) -> Result<Names, NoMemory> {
    let mut all = Names::new(alloc);
    for word in command.words {
        all.push(Blob::of(alloc, word)?)?;
    }
    for (_, name) in command.modules.iter().zip(b"mno") {
        all.push(Blob::of(alloc, &[*name])?)?;
    }
    Ok(all)
}

fn files_of(
    alloc: Global,
    command: &Command<'_>,
    outside: &Outside<'_>,
) -> Result<MemFiles, NoMemory> {
    let failing = numbers(alloc, outside.failing_reads)?;
    let mut files = MemFiles::new(alloc, outside.read.max(1), failing);
    files.put_file(b"c", &joined(alloc, command.capture)?)?;
    for (module, name) in command.modules.iter().zip(b"mno") {
        files.put_file(&[*name], module)?;
    }
    Ok(files)
}

/// Runs a command, and gives the status and what was written.
pub fn run(
    alloc: Global,
    command: Command<'_>,
    outside: Outside<'_>,
) -> Result<(Status, Blob), NoMemory> {
    let words = words_of(alloc, &command)?;
    let mut files = files_of(alloc, &command, &outside)?;
    let failing = numbers(alloc, outside.failing_writes)?;
    let mut sink = MemSink::new(alloc, outside.write.max(1), failing);
    sink.reserve(4096)?;
    let status = hilti_call(alloc, words.as_slice(), &mut files, &mut sink);
    Ok((status, Blob::of(alloc, sink.written())?))
}
