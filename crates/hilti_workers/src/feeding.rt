//! What the pass that feeds does: it feeds all that comes, and marks the end of the feed.
ghost use Rattle.std.specs.Prelude.{◌≡◌, ◌++◌, ◌∷◌, [], ◌⊎◌, IsSomeAnd, OnOk, Contains};
ghost use Rattle.hilti_tree.specs.declared.call.Call.{Call};
ghost use Rattle.hilti_turn.specs.Passes.{number, about, seen, mine, IsSamePass};
ghost use Rattle.hilti_workers.specs.Turns.{IsAtHand};
ghost use Rattle.hilti_pool.specs.declared.entries.Entry.{Entry};
ghost use Rattle.hilti_workers.specs.Feeding.{Feeds, WasRead, entries_of_feed};

use crate::section::feed_or_give_up;
use crate::turns::break_off;
use hilti_base::NoMemory;
use hilti_core::Body;
use hilti_feeder::Feeder;
use hilti_pool::Pool;
use hilti_tree::Call;
use hilti_turn::{Pass, Turn};
use std::sync::Wait;

/// Pass 0 feeds all that comes, and marks the end of the feed. Without memory the pool is given up.
pub fn feed_all<R: Wait, B: Body + Send + Sync, F: Feeder>(
    turn: &Turn<Pool<B>>,
    rt: &R,
    pass: &mut Pass<Pool<B>>,
    feeder: &mut F,
) -> Result<(), NoMemory>
    requires at_hand { IsAtHand turn.now pass.old }
    requires feeds { number pass.old ≡ 0 }
    requires sound { IsSomeAnd (about pass.old) (λ subject. (call : Call)
        → F.gives (F.origin feeder.old) call → B.sound subject.body call) }
    ensures at_hand { IsAtHand turn.now pass.new }
    ensures same { IsSamePass pass.old pass.new }
    ensures fed { OnOk result (Feeds (F.gives (F.origin feeder.old)) (F.coming feeder.old)
        (F.lost feeder.new) (mine pass.old) (mine pass.new)) }
    ensures read { OnOk result (WasRead (F.origin feeder.old) (F.origin feeder.new)
        (F.faults feeder.old) (F.faults feeder.new) (F.lost feeder.old) (F.lost feeder.new)
        (F.ended feeder.new)) }
    ensures ended { OnOk result (Contains (seen pass.new) Entry.FeedEnd) }
{
    for _ in rt.forever() {
        match feeder.next() {
            Ok(Some(call)) => feed_call(turn, rt, pass, call)?,
            Ok(None) => {
                end_feed(turn, rt, pass);
                return Ok(());
            }
            Err(error) => {
                break_off(turn, rt, pass);
                return Err(error);
            }
        }
    }
    unreachable!()
}

/// Enters, and feeds a call. Without memory the pool is given up.
fn feed_call<R: Wait, B: Body + Send + Sync>(
    turn: &Turn<Pool<B>>,
    rt: &R,
    pass: &mut Pass<Pool<B>>,
    call: Call,
) -> Result<(), NoMemory>
    requires at_hand { IsAtHand turn.now pass.old }
    requires feeds { number pass.old ≡ 0 }
    requires sound { IsSomeAnd (about pass.old) (λ subject. B.sound subject.body call) }
    ensures at_hand { IsAtHand turn.now pass.new }
    ensures same { IsSamePass pass.old pass.new }
    ensures mine { mine pass.new ≡ mine pass.old ++ entries_of_feed call result }
{
    let mut pool = turn.enter(rt, pass);
    let fed = feed_or_give_up(&mut pool, call);
    turn.leave(pass, pool);
    fed
}

/// Enters, and marks the end of the feed.
fn end_feed<R: Wait, B: Body + Send + Sync>(turn: &Turn<Pool<B>>, rt: &R, pass: &mut Pass<Pool<B>>)
    requires at_hand { IsAtHand turn.now pass.old }
    requires feeds { number pass.old ≡ 0 }
    ensures at_hand { IsAtHand turn.now pass.new }
    ensures same { IsSamePass pass.old pass.new }
    ensures mine { (mine pass.new ≡ mine pass.old)
        ⊎ (mine pass.new ≡ mine pass.old ++ Entry.FeedEnd ∷ []) }
    ensures ended { Contains (seen pass.new) Entry.FeedEnd }
{
    let mut pool = turn.enter(rt, pass);
    pool.end_feed();
    turn.leave(pass, pool);
}
