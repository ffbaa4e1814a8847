//! Fakes that fail as planned, and the files and a writer of the system.
use hilti_base::{NoMemory, Numbers};
use hilti_outside::{
    DiskFiles, Failed, FileFault, Files, MemFiles, MemSink, OutSink, Sink, SureFiles, SureSink,
    read_file, write_all,
};
use std::alloc::Global;
use std::fs;
use std::io::{self, ErrorKind, Write};
use std::test::Fail;

fn numbers(alloc: Global, items: &[u64]) -> Result<Numbers, NoMemory> {
    let mut all = Numbers::new(alloc);
    for item in items {
        all.push(*item)?;
    }
    Ok(all)
}

/// Is interrupted so often, and then writes a byte at a time.
#[derive(Drop)]
struct Interrupted {
    left: u32,
}

impl Write for Interrupted {
    fn write(&mut self, buf: &[u8]) -> io::Result<usize> {
        if self.left > 0 {
            self.left -= 1;
            return Err(io::Error::from(ErrorKind::Interrupted));
        }
        Ok(buf.len().min(1))
    }

    fn flush(&mut self) -> io::Result<()> {
        Ok(())
    }
}

#[test]
fn a_file_in_memory_is_read_to_its_end(rt: HostRuntime) -> Result<(), Fail> {
    let alloc = rt.alloc();
    let mut files = MemFiles::new(alloc, 3, Numbers::new(alloc));
    files.put_file(b"a", b"old text")?;
    files.put_file(b"a", b"hello world")?;
    files.put_file(b"b", b"")?;
    assert_eq!(rt;
        read_file(alloc, &mut files, b"a", 11)?.bytes(),
        b"hello world".as_slice()
    );
    assert_eq!(rt;
        read_file(alloc, &mut files, b"b", 0)?.bytes(),
        b"".as_slice()
    );
    assert_eq!(rt;
        read_file(alloc, &mut files, b"a", 10).err(),
        Some(FileFault::TooLong)
    );
    assert_eq!(rt;
        read_file(alloc, &mut files, b"c", 10).err(),
        Some(FileFault::Failed)
    );
    Ok(())
}

#[test]
fn the_planned_reads_fail(rt: HostRuntime) -> Result<(), Fail> {
    let alloc = rt.alloc();
    let mut files = MemFiles::new(alloc, 3, numbers(alloc, &[3, 4])?);
    files.put_file(b"a", b"hello")?;
    let mut into = [0; 8];
    assert_eq!(rt; files.open_file(b"a"), Ok(()), "call 1");
    assert_eq!(rt; files.read(&mut into), Ok(3), "call 2");
    assert_eq!(rt; files.read(&mut into), Err(Failed), "call 3");
    assert_eq!(rt; files.open_file(b"a"), Err(Failed), "call 4");
    assert_eq!(rt; files.read(&mut into), Ok(0), "no file is current");
    let opened = files.opened().ok_or("no names")?;
    assert_eq!(rt; opened.len(), 2);
    Ok(())
}

#[test]
fn sure_files_have_every_name(rt: HostRuntime) -> Result<(), Fail> {
    let alloc = rt.alloc();
    let mut files = SureFiles::new(alloc);
    files.put_file(b"a", b"hello")?;
    assert_eq!(rt;
        read_file(alloc, &mut files, b"a", 100)?.bytes(),
        b"hello".as_slice()
    );
    assert_eq!(rt;
        read_file(alloc, &mut files, b"c", 100)?.bytes(),
        b"".as_slice()
    );
    Ok(())
}

#[test]
fn a_sink_in_memory_takes_what_was_reserved(rt: HostRuntime) -> Result<(), Fail> {
    let alloc = rt.alloc();
    let mut sink = MemSink::new(alloc, 4, numbers(alloc, &[3])?);
    sink.reserve(9)?;
    assert_eq!(rt; write_all(&mut sink, b"abcdef"), Ok(()), "calls 1 and 2");
    assert_eq!(rt; sink.write(b"x"), Err(Failed), "call 3");
    assert_eq!(rt;
        write_all(&mut sink, b"ghijk"),
        Err(Failed),
        "no room is left"
    );
    assert_eq!(rt; sink.written(), b"abcdefghi".as_slice());
    Ok(())
}

#[test]
fn a_sure_sink_takes_all(rt: HostRuntime) -> Result<(), Fail> {
    let mut sink = SureSink::new(rt.alloc(), 5)?;
    write_all(&mut sink, b"abc")?;
    assert_eq!(rt; sink.lost(), 0);
    write_all(&mut sink, b"defgh")?;
    assert_eq!(rt; sink.written(), b"abcde".as_slice());
    assert_eq!(rt; sink.lost(), 3);
    Ok(())
}

#[test]
fn files_of_the_system_are_read(rt: HostRuntime) -> Result<(), Fail> {
    let alloc = rt.alloc();
    let process = std::process::id(rt.process());
    let folder = format!(in alloc; "hilti_outside_{process}")?;
    let path = format!(in alloc; "hilti_outside_{process}/text")?;
    fs::create_dir(&rt, folder.as_str())?;
    fs::write(&rt, path.as_str(), "hello")?;
    let mut files = DiskFiles::new(&rt);
    let text = read_file(alloc, &mut files, path.as_bytes(), 100);
    let missing = read_file(alloc, &mut files, b"hilti_outside_missing", 100);
    let a_folder = read_file(alloc, &mut files, folder.as_bytes(), 100);
    let no_utf8 = files.open_file(b"\xff");
    fs::remove_dir_all(&rt, folder.as_str())?;
    assert_eq!(rt; text?.bytes(), b"hello".as_slice());
    assert_eq!(rt; missing.err(), Some(FileFault::Failed));
    assert_eq!(rt; a_folder.err(), Some(FileFault::Failed));
    assert_eq!(rt; no_utf8, Err(Failed));
    Ok(())
}

#[test]
fn an_interrupted_write_is_tried_again_16_times(rt: HostRuntime) {
    for (left, written) in [(0, Ok(())), (16, Ok(())), (17, Err(Failed))] {
        let mut sink = OutSink::new(Interrupted { left });
        assert_eq!(rt;
            write_all(&mut sink, b"hello"),
            written,
            "{left} interrupts"
        );
    }
}
