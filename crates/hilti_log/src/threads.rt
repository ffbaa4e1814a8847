//! The report of a run.
ghost use Rattle.std.specs.Prelude.{◌≡◌, ◌++◌, ℕ, IfOk, OnOk};
ghost use Rattle.std.specs.List.{flat_map};
ghost use Rattle.hilti_pool.specs.State.{InCore};
ghost use Rattle.hilti_log.specs.Texts.{line_text, thread_text, total_text};
ghost use Rattle.hilti_log.specs.Reports.{AddsThreads, IsReport};

use hilti_base::{Blob, NoMemory, ThreadId};
use hilti_core::Body;
use hilti_pool::Pool;
use hilti_print::number;
use std::alloc::Global;

/// What a pool's threads did: for each thread that ran, by rising number, the line `thread N: K calls` and then its
/// lines with two spaces before each; last `total: C calls, S segments`, the calls started and the segments taken. Each
/// line ends with byte 0a.
pub fn report<B: Body>(alloc: Global, pool: &Pool<B>) -> Result<Blob, NoMemory>
    ensures { IfOk result (λ text. InCore B.effect pool.now (λ c. IsReport c text)) }
{
    let mut out = Blob::new(alloc);
    append_threads(&mut out, pool)?;
    append_total(&mut out, pool.started(), pool.segments())?;
    Ok(out)
}

/// Adds the texts of all threads that ran.
fn append_threads<B: Body>(out: &mut Blob, pool: &Pool<B>) -> Result<(), NoMemory>
    ensures { OnOk result (InCore B.effect pool.now (λ c. AddsThreads c out.old out.new)) }
{
    let threads = pool.threads();
    for place in 0..threads {
        let Some((thread, calls, lines)) = pool.log(place) else {
            unreachable!()
        };
        append_thread(out, thread, calls, lines)?;
    }
    Ok(())
}

/// Adds the text of a thread.
fn append_thread(
    out: &mut Blob,
    thread: ThreadId,
    calls: u64,
    lines: &[Blob],
) -> Result<(), NoMemory>
    ensures { OnOk result (out.new ≡ out.old
        ++ thread_text (record { thread = thread.n; calls = calls; lines = lines.now })) }
{
    out.append(b"thread ")?;
    number(out, thread.n)?;
    out.append(b": ")?;
    number(out, calls)?;
    out.append(b" calls\n")?;
    append_lines(out, lines)
}

/// Adds lines, each behind two spaces.
fn append_lines(out: &mut Blob, lines: &[Blob]) -> Result<(), NoMemory>
    ensures { OnOk result (out.new ≡ out.old ++ flat_map line_text lines.now) }
{
    for line in lines {
        out.append(b"  ")?;
        out.append(line.bytes())?;
        out.append(b"\n")?;
    }
    Ok(())
}

/// Adds the line of the counts.
fn append_total(out: &mut Blob, started: u64, segments: u64) -> Result<(), NoMemory>
    ensures { OnOk result (out.new ≡ out.old ++ total_text started segments) }
{
    out.append(b"total: ")?;
    number(out, started)?;
    out.append(b" calls, ")?;
    number(out, segments)?;
    out.append(b" segments\n")
}
