//! The journal of a run as a text.
ghost use Rattle.std.specs.Prelude.{◌≡◌, ◌++◌, IfOk, OnOk};
ghost use Rattle.hilti_log.specs.Texts.{event_text, text_of};

use hilti_base::{Blob, NoMemory};
use hilti_core::{Body, Event};
use hilti_pool::Pool;
use hilti_print::number;
use std::alloc::Global;

/// The text of a pool's journal: `journal: E events`, and then a line for each event in its order, `  feed`,
/// `  take W R` or `  put W`, of worker W and thread R. Each line ends with byte 0a.
pub fn journal_text<B: Body>(alloc: Global, pool: &Pool<B>) -> Result<Blob, NoMemory>
    ensures { IfOk result (λ text. text ≡ text_of pool.now.journal) }
{
    let events = pool.journal();
    let mut out = Blob::new(alloc);
    out.append(b"journal: ")?;
    number(&mut out, events.len() as u64)?;
    out.append(b" events\n")?;
    for event in events {
        append_event(&mut out, *event)?;
    }
    Ok(out)
}

/// Adds the line of an event.
fn append_event(out: &mut Blob, event: Event) -> Result<(), NoMemory>
    ensures { OnOk result (out.new ≡ out.old ++ event_text event) }
{
    match event {
        Event::Feed => out.append(b"  feed\n"),
        Event::Take { worker, thread } => {
            out.append(b"  take ")?;
            number(out, u64::from(worker))?;
            out.append(b" ")?;
            number(out, thread.n)?;
            out.append(b"\n")
        }
        Event::Put { worker } => {
            out.append(b"  put ")?;
            number(out, u64::from(worker))?;
            out.append(b"\n")
        }
    }
}
