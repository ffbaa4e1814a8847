ghost use Rattle.std.specs.Prelude.{◌≡◌, IfOk, [], ◌∷◌, decimal};
ghost use Rattle.hilti_core.specs.declared.pieces.Item.TheVariants.{Line};
ghost use Rattle.hilti_core.specs.Countdown.{number_of, next, effect_of, IsNumber, IsAt};
ghost use Rattle.hilti_core.specs.CountdownLaw.{has_segments};

use crate::body::Body;
use crate::pieces::{End, Item, Items, Segment};
use hilti_base::{Blob, FnId, NoMemory, ThreadId};
use hilti_tree::{Call, Forest, Tree};
use std::alloc::Global;

/// A small body that yields and sends, to try what runs bodies: a call on a whole number `n` prints `n`, yields, and
/// where `n` isn't 0 sends a call on `n - 1` to thread `n`.
pub struct Countdown;

/// A virtual thread of `Countdown`.
#[derive(Debug, Drop)]
pub struct Counter {
    alloc: Global,
    progress: Option<Progress>,
}

/// A call in progress: its function and number, and whether the number was printed.
#[derive(Clone, Copy, Debug)]
struct Progress {
    function: FnId,
    number: u64,
    printed: bool,
}

fn first_number(args: &Forest) -> u64
    ensures { result ≡ number_of args.now }
{
    match args.get(0) {
        Some(Tree::Int(n)) => *n,
        _ => 0,
    }
}

fn line(alloc: Global, number: u64) -> Result<Items, NoMemory>
    ensures { IfOk result (λ items. items ≡ Line (decimal number) ∷ []) }
{
    let text = format!(in alloc; "{number}")?;
    let mut items = Items::new(alloc);
    items.push(Item::Line {
        text: Blob::of(alloc, text.as_bytes())?,
    })?;
    Ok(items)
}

fn next_call(alloc: Global, function: FnId, number: u64) -> Result<Items, NoMemory>
    ensures { IfOk result (λ items. items ≡ next function number) }
{
    let mut items = Items::new(alloc);
    if number > 0 {
        let mut args = Forest::new(alloc);
        args.push(Tree::Int(number - 1))?;
        items.push(Item::Send {
            to: ThreadId { n: number },
            call: Call { function, args },
        })?;
    }
    Ok(items)
}

impl Body for Countdown {
    type Vt = Counter;

    type Data = ();

    ghost facts = { λ _. record {} };

    ghost effect = { λ _ _ _ call. effect_of call };

    ghost sound = { λ _ call. IsNumber call };

    ghost runs = { λ _ counter _ _ running. IsAt counter running };

    ghost segments = { λ _. has_segments };

    fn fresh(&self, alloc: Global, _thread: ThreadId) -> Result<Counter, NoMemory> {
        Ok(Counter {
            alloc,
            progress: None,
        })
    }

    fn start(&self, vt: &mut Counter, call: Call) -> Result<(), NoMemory> {
        vt.progress = Some(Progress {
            function: call.function,
            number: first_number(&call.args),
            printed: false,
        });
        Ok(())
    }

    fn segment(&self, vt: &mut Counter) -> Result<Segment, NoMemory> {
        match vt.progress {
            Some(progress) if !progress.printed => {
                let items = line(vt.alloc, progress.number)?;
                vt.progress = Some(Progress {
                    printed: true,
                    ..progress
                });
                Ok(Segment {
                    items,
                    end: End::Yielded,
                })
            }
            Some(progress) => {
                let items = next_call(vt.alloc, progress.function, progress.number)?;
                vt.progress = None;
                Ok(Segment {
                    items,
                    end: End::Returned,
                })
            }
            None => unreachable!(),
        }
    }
}
