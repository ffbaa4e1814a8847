//! Passes that take turns in threads of their own, and the diary that they make.
ghost use Rattle.std.specs.Prelude.{◌≡◌, ℕ, ◌<◌, ◌≤◌, ◌++◌, ◌∷◌, [], OnOk, OnErr, IfOk, All};
ghost use Rattle.std.specs.Prelude.{vec_len, slice_index_or};
ghost use Rattle.hilti_turn.specs.Passes.{number, IsOutside};
ghost use Rattle.hilti_turn.specs.Turns.{IsPassOf};

use hilti_base::NoMemory;
use hilti_turn::{Journalled, Pass, Turn};
use std::alloc::{AllocError, Global};
use std::process::Abort;
use std::sync::Wait;
use std::test::Fail;
use std::thread;
use std::thread::Threads;

/// One deed of a pass: its number among the deeds of that pass.
#[derive(Clone, Copy)]
struct Deed {
    pass: u32,
    number: u64,
}

#[derive(Drop)]
struct Diary {
    owner: u8,
    deeds: Vec<Deed>,
}

impl Journalled for Diary {
    type Entry = Deed;

    type About = u8;

    ghost entries = { λ d. d.deeds.items };

    ghost maker = { λ e. e.pass };

    ghost about = { λ d. d.owner };

    fn count(&self) -> u64 {
        self.deeds.len() as u64
    }
}

impl Diary {
    fn note(&mut self, pass: u32, number: u64) -> Result<(), AllocError>
        ensures ok { OnOk result (self.new.deeds.items
            ≡ self.old.deeds.items ++ record { pass = pass; number = number } ∷ []) }
        ensures err { OnErr result (self.new.deeds.items ≡ self.old.deeds.items) }
        ensures owner { self.new.owner ≡ self.old.owner }
    {
        self.deeds.push(Deed { pass, number })?;
        Ok(())
    }
}

// Each turn notes one deed.
fn take_turns<R: Wait>(rt: &R, turn: &Turn<Diary>, mut pass: Pass<Diary>, turns: u32) -> Pass<Diary>
    requires { IsPassOf turn.now pass × IsOutside pass }
    ensures own { IsPassOf turn.now result × IsOutside result }
    ensures number { number result ≡ number pass }
{
    for deed in 0..turns {
        let mut diary = turn.enter(rt, &mut pass);
        let _ = diary.note(pass.number(), u64::from(deed));
        turn.leave(&mut pass, diary);
    }
    pass
}

// Each pass takes its turns in a thread of its own.
fn run<R: Threads + Wait + Sync>(
    rt: &R,
    turn: &Turn<Diary>,
    passes: Vec<Pass<Diary>>,
    turns: u32,
) -> Result<Vec<Pass<Diary>>, AllocError>
    requires { All (λ p. IsPassOf turn.now p × IsOutside p) passes.items }
    ensures len { IfOk result (λ v. vec_len v ≡ vec_len passes) }
    ensures own { IfOk result (λ v. All (λ p. IsPassOf turn.now p × IsOutside p) v.items) }
    ensures numbers { IfOk result (λ v. (k : ℕ) (d : _) → k < vec_len passes
        → number (slice_index_or v.items k d) ≡ number (slice_index_or passes.items k d)) }
{
    thread::map_vec(
        rt,
        passes,
        &|pass: Pass<Diary>| -> Pass<Diary>
            requires { IsPassOf turn.now pass × IsOutside pass }
            ensures { IsPassOf turn.entry.now result × IsOutside result
                × (number result ≡ number pass) }
        { take_turns(rt, turn, pass, turns) },
    )
}

// The diary after as many turns of each of the passes.
fn diary_after<R: Threads + Wait + Sync>(
    rt: &R,
    alloc: Global,
    seats: u32,
    turns: u32,
) -> Result<Diary, NoMemory>
    requires { (1 ≤ seats) × (seats ≤ 65) }
{
    let diary = Diary {
        owner: 7,
        deeds: Vec::with_capacity(alloc, seats as usize * turns as usize)?,
    };
    let (turn, passes) = Turn::make(alloc, diary, seats)?;
    let passes = run(rt, &turn, passes, turns)?;
    Ok(turn.close(passes))
}

// Each pass's deeds stand in their order, all of them, and no others.
fn check_diary(
    rt: &impl Abort,
    alloc: Global,
    diary: &Diary,
    seats: u32,
    turns: u32,
) -> Result<(), NoMemory> {
    let mut next = Vec::from_elem(alloc, 0u64, seats as usize)?;
    for deed in &diary.deeds {
        let place = deed.pass as usize;
        assert!(rt; place < next.len(), "a deed of pass {}", deed.pass);
        assert_eq!(rt; deed.number, next[place], "of pass {}", deed.pass);
        next[place] = deed.number.saturating_add(1);
    }
    assert!(rt; next.iter().all(|n| *n == u64::from(turns)));
    assert_eq!(rt; diary.owner, 7);
    Ok(())
}

#[test]
fn four_threads_take_ten_thousand_turns_each(rt: HostRuntime) -> Result<(), Fail> {
    let diary = diary_after(&rt, rt.alloc(), 4, 10_000)?;
    check_diary(&rt, rt.alloc(), &diary, 4, 10_000)?;
    Ok(())
}

#[test]
fn sixty_four_threads_take_five_hundred_turns_each(rt: HostRuntime) -> Result<(), Fail> {
    let diary = diary_after(&rt, rt.alloc(), 64, 500)?;
    check_diary(&rt, rt.alloc(), &diary, 64, 500)?;
    Ok(())
}
