//! Calls that count down, and pools that they are fed to.
ghost use Rattle.std.specs.Prelude.{◌≡◌, [], ◌∷◌, false, IfOk, OnOk};
ghost use Rattle.hilti_core.specs.Countdown.{IsNumber};
ghost use Rattle.hilti_tree.specs.declared.tree.Tree.TheVariants.{Int};

use hilti_base::{FnId, NoMemory, ThreadId};
use hilti_core::countdown::Countdown;
use hilti_pool::Pool;
use hilti_tree::{Call, Forest, Tree};
use std::alloc::Global;

/// A call of function 0 on this number.
pub(crate) fn number_call(alloc: Global, number: u64) -> Result<Call, NoMemory>
    ensures is { IfOk result (λ call. call
        ≡ record { function = record { n = 0 }; args = Int number ∷ [] }) }
    ensures number { IfOk result (λ call. IsNumber call) }
{
    let mut args = Forest::new(alloc);
    args.push(Tree::Int(number))?;
    Ok(Call {
        function: FnId { n: 0 },
        args,
    })
}

/// What is done with a pool.
#[derive(Clone, Copy)]
pub(crate) enum Step {
    /// A call on a number is fed.
    Feed { number: u64 },
    EndFeed,
    /// A thread goes on for one segment at a worker.
    Advance { worker: u32, thread: u64 },
}

/// A new pool with which these steps were taken, one after another; `None` where a worker isn't free for a thread that
/// is to go on, or the thread isn't ready.
pub(crate) fn played(alloc: Global, steps: &[Step]) -> Result<Option<Pool<Countdown>>, NoMemory> {
    let mut pool = Pool::new(alloc, &Countdown, 10);
    for step in steps {
        match step {
            Step::Feed { number } => feed(&mut pool, alloc, *number)?,
            Step::EndFeed => pool.end_feed(),
            Step::Advance { worker, thread } => {
                if !advance(&mut pool, alloc, *worker, *thread)? {
                    return Ok(None);
                }
            }
        }
    }
    Ok(Some(pool))
}

fn feed(pool: &mut Pool<Countdown>, alloc: Global, number: u64) -> Result<(), NoMemory>
    ensures { OnOk result (pool.new.given_up ≡ pool.old.given_up) }
{
    match pool.feed(number_call(alloc, number)?) {
        Ok(()) => Ok(()),
        Err((_call, error)) => Err(error),
    }
}

/// One segment of a thread, at a worker that has none; false where the thread isn't ready.
fn advance(
    pool: &mut Pool<Countdown>,
    alloc: Global,
    worker: u32,
    thread: u64,
) -> Result<bool, NoMemory>
    requires { pool.old.given_up ≡ false }
    ensures { OnOk result (pool.new.given_up ≡ false) }
{
    let thread = ThreadId { n: thread };
    if pool.out_at(worker).is_some() || !pool.is_ready(thread) {
        return Ok(false);
    }
    pool.advance(alloc, &Countdown, worker, thread)?;
    Ok(true)
}
