//! Callers of one turn, on one thread and on many.
ghost use Rattle.std.specs.Prelude.{◌≡◌, ℕ, ◌<◌, List, length};
ghost use Rattle.std.specs.Thread.{IsSync};
ghost use Rattle.turnstile.specs.declared.view.KnownPass.{KnownPass};
ghost use Rattle.turnstile.specs.declared.view.MadeEntry.{MadeEntry};
ghost use Rattle.turnstile.specs.Rules.{entries_of, first_view};
ghost use Rattle.turnstile.specs.Joinings.{HasJoinedAll};
ghost use Rattle.turnstile.specs.Numbers.{AreWhole, IsPlaceOf};
ghost use Rattle.turnstile.specs.Turns.{IsPassOf, view};

use super::adder::Adder;
use crate::laws::joined_passes_are_whole;
use crate::{History, Pass, Turn};
use std::process::Abort;
use std::sync::Wait;
use std::thread;
use std::thread::{Threads, join};
use std::time::{Clock, Duration, Instant};

/// Adds each number below the count, and gives the pass back.
pub fn add_all<W: Wait>(
    rt: &W,
    turn: &Turn<Adder>,
    mut pass: Pass<Adder>,
    count: u64,
) -> Pass<Adder>
    requires { IsPassOf turn.now pass }
    ensures pass { IsPassOf turn.now result }
    ensures joined { HasJoinedAll (view pass) (view result) }
{
    joined_passes_are_whole::<Adder>();
    for i in 0..count {
        let _given = turn.call(rt, &mut pass, i);
    }
    pass
}

/// Two to the power of `halvings` threads add, each with a pass of its own, which are joined again.
pub fn add_on_threads<R: Threads + Wait + Sync>(
    rt: &R,
    turn: &Turn<Adder>,
    mut pass: Pass<Adder>,
    halvings: u32,
    count: u64,
) -> Pass<Adder>
    requires { IsPassOf turn.now pass }
    ensures pass { IsPassOf turn.now result }
    ensures joined { HasJoinedAll (view pass) (view result) }
{
    joined_passes_are_whole::<Adder>();
    if halvings == 0 {
        return add_all(rt, turn, pass, count);
    }
    let fewer = halvings - 1;
    let other = turn.seat(&mut pass);
    let (mut one, two) = join(
        rt,
        || -> Pass<Adder>
            requires { IsSync R.row × IsPassOf turn.now pass }
            ensures { IsPassOf turn.entry.now result × HasJoinedAll (view pass) (view result) }
        { add_on_threads(rt, turn, pass, fewer, count) },
        || -> Pass<Adder>
            requires { IsSync R.row × IsPassOf turn.now other }
            ensures { IsPassOf turn.entry.now result × HasJoinedAll (view other) (view result) }
        { add_on_threads(rt, turn, other, fewer, count) },
    );
    turn.join(&mut one, two);
    one
}

/// Sixteen threads add, and the turn is closed. Each entry is that of exactly one of the passes.
pub fn add_and_close<R: Threads + Wait + Sync>(
    rt: &R,
    turn: Turn<Adder>,
    pass: Pass<Adder>,
    count: u64,
) -> (Adder, History<u64, u64>)
    requires { IsPassOf turn pass × (origin : List ℕ) × (view pass ≡ first_view origin) }
    ensures { (passes : List KnownPass) × (log : List (MadeEntry ℕ ℕ)) × (result.1 ≡ entries_of log) × AreWhole passes
        × ((place : ℕ) → place < length log → (i : ℕ) × IsPlaceOf passes place i × ((j : ℕ) → IsPlaceOf passes place j → j ≡ i)) }
{
    joined_passes_are_whole::<Adder>();
    let pass = add_on_threads(rt, &turn, pass, 4, count);
    turn.close(rt, pass)
}

/// Glances until the history has this many entries, and fails where none is entered for longer than `patience`.
pub fn watch<R: Wait + Clock + Abort>(
    rt: &R,
    turn: &Turn<Adder>,
    mut pass: Pass<Adder>,
    whole: u32,
    patience: Duration,
) -> Pass<Adder>
    requires { IsPassOf turn.now pass }
    ensures { IsPassOf turn.now result }
{
    let mut length = 0;
    let mut entered = clock(rt);
    for _ in rt.forever() {
        let glance = turn.glance(&mut pass);
        if glance.length >= whole {
            break;
        }
        if glance.length != length {
            length = glance.length;
            entered = clock(rt);
        } else if has_passed(rt, entered, patience) {
            panic!(rt; "no call was entered for {} seconds", patience.as_secs());
        }
        thread::sleep(rt, Duration::from_millis(1));
    }
    pass
}

fn clock<R: Clock + Abort>(rt: &R) -> Instant {
    match Instant::now(rt) {
        Ok(now) => now,
        Err(_) => panic!(rt; "a clock"),
    }
}

fn has_passed<R: Clock + Abort>(rt: &R, since: Instant, time: Duration) -> bool {
    match since.elapsed(rt) {
        Ok(elapsed) => elapsed > time,
        Err(_) => panic!(rt; "a clock"),
    }
}

/// Sixteen threads add, while one more watches that calls are entered.
pub fn add_watched<R: Threads + Wait + Clock + Abort + Sync>(
    rt: &R,
    turn: &Turn<Adder>,
    mut pass: Pass<Adder>,
    count: u64,
    whole: u32,
    patience: Duration,
) -> Pass<Adder>
    requires { IsPassOf turn.now pass }
    ensures { IsPassOf turn.now result }
{
    let watching = turn.seat(&mut pass);
    let (mut pass, watched) = join(
        rt,
        || -> Pass<Adder>
            requires { IsSync R.row × IsPassOf turn.now pass }
            ensures { IsPassOf turn.entry.now result }
        { add_on_threads(rt, turn, pass, 4, count) },
        || -> Pass<Adder>
            requires { IsSync R.row × IsPassOf turn.now watching }
            ensures { IsPassOf turn.entry.now result }
        { watch(rt, turn, watching, whole, patience) },
    );
    turn.join(&mut pass, watched);
    pass
}
