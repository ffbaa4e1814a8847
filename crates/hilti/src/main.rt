//! The program `hilti`: runs modules of typed instructions over captures of network traffic.
#![tactic(auto)]

use hilti_base::{Blob, Names, NoMemory};
use hilti_outside::{DiskFiles, OutSink};
use hilti_top::{Status, hilti_call};
use std::env;
use std::io::{self, ErrorKind, Write};
use std::process::ExitCode;

fn main(rt: HostRuntime) -> ExitCode {
    let status = run(&rt);
    if let Ok(text) = status.text(rt.alloc()) {
        let _ = rt.stderr().write_all(text.bytes());
    }
    ExitCode::from(status.number())
}

fn run(rt: &HostRuntime) -> Status {
    match words(rt) {
        Ok(words) => hilti_call(
            rt.alloc(),
            words.as_slice(),
            &mut DiskFiles::new(rt),
            &mut OutSink::new(io::writer(rt)),
        ),
        Err(error) if error.kind() == ErrorKind::OutOfMemory => Status::NoMemory,
        // A word isn't UTF-8.
        Err(_) => Status::Usage,
    }
}

/// The words of the command line, without the program's own name.
fn words(rt: &HostRuntime) -> io::Result<Names> {
    let mut words = Names::new(rt.alloc());
    for word in env::args(rt)?.skip(1) {
        let word = Blob::of(rt.alloc(), word.as_bytes()).map_err(out_of_memory)?;
        words.push(word).map_err(out_of_memory)?;
    }
    Ok(words)
}

fn out_of_memory(_error: NoMemory) -> io::Error {
    io::Error::from(ErrorKind::OutOfMemory)
}
