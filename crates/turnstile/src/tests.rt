//! Calls of a turn over a machine that adds, from one thread and from many.
mod adder;
mod callers;

use crate::{CallFault, Entry, Turn};
use adder::{Adder, Sum};
use callers::{add_all, add_and_close, add_on_threads, add_watched};
use std::test::Fail;
use std::time::{Duration, Instant};

/// Rounds of the adder for which a turn takes some tenths of a millisecond.
const ROUNDS: u32 = 300_000;

// Whether each outcome is the one before it and its operation added.
fn are_running_sums(entries: &[Entry<u64, u64>]) -> bool {
    let mut sum = 0u64;
    for entry in entries {
        sum = sum.wrapping_add(entry.op);
        if entry.outcome != sum {
            return false;
        }
    }
    true
}

#[test]
fn two_passes_share_one_history(rt: HostRuntime) -> Result<(), Fail> {
    let Ok((turn, mut one)) = Turn::new(rt.alloc(), Adder::new(0)) else {
        panic!(rt; "a turn")
    };
    let mut two = turn.seat(&mut one);
    let Ok(first) = turn.call(&rt, &mut one, 5) else {
        panic!(rt; "a first call")
    };
    let Ok(second) = turn.call(&rt, &mut two, 7) else {
        panic!(rt; "a second call")
    };
    let glance = turn.glance(&mut one);
    assert!(rt; first.place == 0 && first.outcome == 5);
    assert!(rt; second.place == 1 && second.outcome == 12);
    assert!(rt; glance.length == 2 && glance.status == 0);
    turn.join(&mut one, two);
    let (adder, history) = turn.close(&rt, one);
    assert!(rt; adder.total == 12 && history.items().len() == 2);
    Ok(())
}

// Another calls between the part and the call that it helps, which would wait for ever if the part held the turn.
#[test]
fn a_part_is_done_outside_the_turn(rt: HostRuntime) -> Result<(), Fail> {
    let Ok((turn, mut one)) = Turn::new(rt.alloc(), Adder::new(0)) else {
        panic!(rt; "a turn")
    };
    let mut two = turn.seat(&mut one);
    let Ok(Some(total)) = turn.part(&rt, &mut one) else {
        panic!(rt; "a part")
    };
    let Ok(first) = turn.call_with(&rt, &mut one, 5, Sum::of(total, 5)) else {
        panic!(rt; "a call with the sum")
    };
    let Ok(Some(total)) = turn.part(&rt, &mut one) else {
        panic!(rt; "another part")
    };
    let Ok(second) = turn.call(&rt, &mut two, 7) else {
        panic!(rt; "a call between")
    };
    let Ok(third) = turn.call_with(&rt, &mut one, 2, Sum::of(total, 2)) else {
        panic!(rt; "a call with an old sum")
    };
    assert!(rt; total == 5 && first.outcome == 5);
    assert!(rt; second.place == 1 && second.outcome == 12);
    assert!(rt; third.place == 2 && third.outcome == 14);
    turn.join(&mut one, two);
    let (adder, history) = turn.close(&rt, one);
    assert!(rt; adder.total == 14 && are_running_sums(history.items()));
    Ok(())
}

#[test]
fn two_threads_add(rt: HostRuntime) -> Result<(), Fail> {
    let Ok((turn, pass)) = Turn::new(rt.alloc(), Adder::new(0)) else {
        panic!(rt; "a turn")
    };
    let pass = add_on_threads(&rt, &turn, pass, 1, 1000);
    let (adder, history) = turn.close(&rt, pass);
    assert!(rt; adder.total == 999_000 && history.items().len() == 2000);
    assert!(rt; are_running_sums(history.items()));
    Ok(())
}

#[test]
fn sixteen_threads_add(rt: HostRuntime) -> Result<(), Fail> {
    let Ok((turn, pass)) = Turn::new(rt.alloc(), Adder::new(0)) else {
        panic!(rt; "a turn")
    };
    let (adder, history) = add_and_close(&rt, turn, pass, 500);
    assert!(rt; adder.total == 16 * 124_750 && history.items().len() == 8000);
    assert!(rt; are_running_sums(history.items()));
    Ok(())
}

// A thread that waits and is not woken stops all those behind it, so that no call is entered any more.
#[test]
fn sixteen_threads_are_woken(rt: HostRuntime) -> Result<(), Fail> {
    let Ok((turn, pass)) = Turn::new(rt.alloc(), Adder::new(ROUNDS)) else {
        panic!(rt; "a turn")
    };
    let start = Instant::now(&rt)?;
    let _pass = add_all(&rt, &turn, pass, 20);
    let one_turn = start.elapsed(&rt)? / 20;
    let patience = one_turn.saturating_mul(300).max(Duration::from_secs(10));
    let Ok((turn, pass)) = Turn::new(rt.alloc(), Adder::new(ROUNDS)) else {
        panic!(rt; "a turn")
    };
    let pass = add_watched(&rt, &turn, pass, 25, 400, patience);
    let (_adder, history) = turn.close(&rt, pass);
    assert!(rt; history.items().len() == 400);
    Ok(())
}

#[test]
fn a_full_history_refuses(rt: HostRuntime) -> Result<(), Fail> {
    let Ok((turn, mut pass)) = Turn::new(rt.alloc(), Adder::new(0)) else {
        panic!(rt; "a turn")
    };
    for _ in 0..1_048_576 {
        if turn.call(&rt, &mut pass, 1).is_err() {
            panic!(rt; "a call");
        }
    }
    let Err(CallFault::HistoryFull(count, op)) = turn.call(&rt, &mut pass, 9) else {
        panic!(rt; "a full history")
    };
    assert!(rt; count == 1_048_576 && op == 9);
    Ok(())
}
