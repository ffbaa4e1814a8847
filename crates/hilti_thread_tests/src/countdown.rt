//! What each virtual thread of the counting body does, segment by segment.
ghost use Rattle.std.specs.Prelude.{◌≡◌, None, IfOk, OnOk, true, false};
ghost use Rattle.hilti_core.specs.Countdown.{HasProgress};

use crate::fixtures::number_call;
use hilti_base::{NoMemory, ThreadId};
use hilti_core::countdown::{Countdown, Counter};
use hilti_core::{Body, End, Item, Segment, laws};
use hilti_tree::Tree;
use std::alloc::Global;
use std::process::Abort;
use std::test::Fail;

fn fresh(alloc: Global, thread: u64) -> Result<Counter, NoMemory>
    ensures { IfOk result (λ counter. counter.progress ≡ None) }
{
    Countdown.fresh(alloc, ThreadId { n: thread })
}

fn begin(counter: &mut Counter, alloc: Global, number: u64) -> Result<(), NoMemory>
    requires { counter.old.progress ≡ None }
    ensures { OnOk result (HasProgress counter.new number false) }
{
    let call = number_call(alloc, number)?;
    Countdown.start(counter, call)?;
    Ok(())
}

fn print(counter: &mut Counter, number: u64) -> Result<Segment, NoMemory>
    requires { HasProgress counter.old number false }
    ensures { OnOk result (HasProgress counter.new number true) }
{
    let segment = Countdown.segment(counter)?;
    Ok(segment)
}

fn send(counter: &mut Counter, number: u64) -> Result<Segment, NoMemory>
    requires { HasProgress counter.old number true }
    ensures { OnOk result (counter.new.progress ≡ None) }
{
    let segment = Countdown.segment(counter)?;
    Ok(segment)
}

fn assert_prints<R: Abort>(rt: &R, segment: &Segment, text: &[u8]) {
    assert_eq!(rt; segment.end, End::Yielded);
    assert_eq!(rt; segment.items.len(), 1);
    match segment.items.get(0) {
        Some(Item::Line { text: line }) => assert_eq!(rt; line.bytes(), text),
        _ => assert!(rt; false, "no line"),
    }
}

fn assert_sends<R: Abort>(rt: &R, segment: &Segment, thread: u64, number: u64) {
    assert_eq!(rt; segment.end, End::Returned);
    assert_eq!(rt; segment.items.len(), 1);
    match segment.items.get(0) {
        Some(Item::Send { to, call }) => {
            assert_eq!(rt; to.n, thread);
            match call.args.get(0) {
                Some(Tree::Int(n)) => assert_eq!(rt; *n, number),
                _ => assert!(rt; false, "no number"),
            }
        }
        _ => assert!(rt; false, "no call"),
    }
}

/// The journal `feed, feed, take 1 0, put 1, take 1 0, put 1, take 2 2, take 1 0, put 1, put 2, take 1 2, put 1, take 2
/// 1, put 2, take 2 1, put 2, take 1 0, put 1` over the calls on 2 and 0: thread 0 prints 2 and 0, thread 2 prints 1,
/// thread 1 prints 0, and each call ends.
#[test]
fn a_journal_by_hand(rt: HostRuntime) -> Result<(), Fail> {
    let alloc = rt.alloc();
    let mut zero = fresh(alloc, 0)?;
    begin(&mut zero, alloc, 2)?;
    assert_prints(&rt, &print(&mut zero, 2)?, b"2");
    assert_sends(&rt, &send(&mut zero, 2)?, 2, 1);
    let mut two = fresh(alloc, 2)?;
    begin(&mut two, alloc, 1)?;
    let held = print(&mut two, 1)?;
    begin(&mut zero, alloc, 0)?;
    assert_prints(&rt, &print(&mut zero, 0)?, b"0");
    assert_prints(&rt, &held, b"1");
    assert_sends(&rt, &send(&mut two, 1)?, 1, 0);
    let mut one = fresh(alloc, 1)?;
    begin(&mut one, alloc, 0)?;
    assert_prints(&rt, &print(&mut one, 0)?, b"0");
    assert_eq!(rt; send(&mut one, 0)?.items.len(), 0);
    assert_eq!(rt; send(&mut zero, 0)?.items.len(), 0);
    Ok(())
}

#[test]
fn laws_hold_of_a_body() {
    laws::call_atomic::<Countdown>();
    laws::one_sender::<Countdown>();
    laws::causal::<Countdown>();
    laws::histories::<Countdown>();
    laws::legal_core::<Countdown>();
    laws::more_calls::<Countdown>();
    laws::one_after_another::<Countdown>();
    laws::stays_out::<Countdown>();
    laws::complete::<Countdown>();
    laws::one_count::<Countdown>();
    laws::inboxes::<Countdown>();
    laws::under_way::<Countdown>();
    laws::one_by_one::<Countdown>();
    laws::one_ends::<Countdown>();
}
