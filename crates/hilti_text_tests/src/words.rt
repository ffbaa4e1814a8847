//! The expected answers come from the rules of the command line, read by hand.
use hilti_base::{Blob, Limits, Names};
use hilti_words::{Command, WordsFault, read_words};
use std::alloc::Global;
use std::test::Fail;

fn read(alloc: Global, words: &[&[u8]]) -> Result<Command, WordsFault> {
    let mut all = Names::new(alloc);
    for word in words {
        all.push(Blob::of(alloc, word)?)?;
    }
    let command = read_words(alloc, all.as_slice())?;
    Ok(command)
}

/// The fuel, the calls, the capture and the modules of a command `one`.
fn read_one(alloc: Global, words: &[&[u8]]) -> Result<(Limits, Blob, Names), Fail> {
    let command = read(alloc, words)?;
    match command {
        Command::One {
            limits,
            capture,
            modules,
        } => Ok((limits, capture, modules)),
        Command::Check { .. } => Err(Fail::from("a check")),
    }
}

#[test]
fn refuses_what_is_no_command(rt: HostRuntime) {
    let alloc = rt.alloc();
    let usage = Some(WordsFault::Usage);
    assert_eq!(rt; read(alloc, &[]).err(), usage);
    assert_eq!(rt; read(alloc, &[b"check", b"--", b"M"]).err(), usage);
    assert_eq!(rt;
        read(alloc, &[b"one", b"--fuel", b"0", b"C", b"M"]).err(),
        usage
    );
    assert_eq!(rt;
        read(alloc, &[b"one", b"--fuel", b"5", b"--fuel=6", b"C", b"M"]).err(),
        usage
    );
    assert_eq!(rt; read(alloc, &[b"one", b"C", b"M", b"--calls"]).err(), usage);
}

#[test]
fn reads_a_check(rt: HostRuntime) -> Result<(), Fail> {
    let alloc = rt.alloc();
    let command = read(alloc, &[b"check", b"M", b"N"])?;
    assert_eq!(rt; command.modules().len(), 2);
    Ok(())
}

#[test]
fn gives_limits_that_are_not_said(rt: HostRuntime) -> Result<(), Fail> {
    let alloc = rt.alloc();
    let (limits, capture, modules) = read_one(alloc, &[b"one", b"C", b"M"])?;
    assert_eq!(rt; limits.fuel, 1_000_000);
    assert_eq!(rt; limits.calls, 1_000_000);
    assert_eq!(rt; limits.workers, 1);
    assert_eq!(rt; capture.bytes(), b"C".as_slice());
    assert_eq!(rt; modules.len(), 1);
    Ok(())
}

#[test]
fn reads_options_in_any_place(rt: HostRuntime) -> Result<(), Fail> {
    let alloc = rt.alloc();
    let words: [&[u8]; 7] = [b"one", b"C", b"--calls=007", b"M", b"--fuel", b"10", b"N"];
    let (limits, capture, modules) = read_one(alloc, &words)?;
    assert_eq!(rt; limits.fuel, 10);
    assert_eq!(rt; limits.calls, 7);
    assert_eq!(rt; capture.bytes(), b"C".as_slice());
    assert_eq!(rt; modules.len(), 2);
    Ok(())
}
