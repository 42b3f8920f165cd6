//! Steps over a desk.
mod callers;
mod encryptions;
mod struck;
mod visitors;

use crate::{Collected, Submitted, Worked};
use callers::{ask, fresh_desk, is_entered, press_all, submit_pin, take, work};
use disk_core::{Keep, Strike};
use encryptions::{are_sealed, encrypting_desk, finish_after_cancel};
use key_source::Key;
use pad_steps::Step;
use pad_words::{Digit, Session};
use std::test::Fail;
use struck::keys_stay_whole;
use visitors::{Errand, is_visit, visit_on_threads};

// The keys of a PIN of four digits.
fn pin_keys() -> Result<[Key; 5], Fail> {
    let one = Digit::new(1).ok_or("a digit")?;
    Ok([
        Key::Digit(one),
        Key::Digit(one),
        Key::Digit(one),
        Key::Digit(one),
        Key::Enter,
    ])
}

#[test]
fn a_pin_is_entered(rt: HostRuntime) -> Result<(), Fail> {
    let session = Session::new(1).ok_or("1 to 16")?;
    let keys = pin_keys()?;
    let Ok((desk, mut pass)) = fresh_desk(rt.alloc()) else {
        panic!(rt; "a desk")
    };
    take(&rt, &desk, &mut pass, Step::Boot)?;
    take(&rt, &desk, &mut pass, Step::Open(session))?;
    let submitted = submit_pin(&rt, &desk, &mut pass, session)?;
    assert!(rt; matches!(submitted, Submitted::Request(1)));
    let asked = ask(&rt, &desk, &mut pass, session, 1)?;
    assert!(rt; matches!(asked, Collected::Pending));
    let worked = work(&rt, &desk, &mut pass)?;
    assert!(rt; matches!(worked, Worked::Did(_)));
    let asked = ask(&rt, &desk, &mut pass, session, 1)?;
    assert!(rt; matches!(asked, Collected::Pending));
    let worked = work(&rt, &desk, &mut pass)?;
    assert!(rt; matches!(worked, Worked::Nothing(_)));
    press_all(&rt, &desk, &mut pass, &keys)?;
    let Collected::Ended(reply) = ask(&rt, &desk, &mut pass, session, 1)? else {
        panic!(rt; "a reply")
    };
    assert!(rt; is_entered(reply.reply(), 4));
    let (_pad, _disk, history) = desk.close(&rt, pass);
    assert!(rt; history.items().len() == 12);
    Ok(())
}

// Each thread has the replies of its own requests, in its order, whatever the others do.
#[test]
fn eight_threads_have_their_replies(rt: HostRuntime) -> Result<(), Fail> {
    let Ok((desk, mut pass)) = fresh_desk(rt.alloc()) else {
        panic!(rt; "a desk")
    };
    take(&rt, &desk, &mut pass, Step::Boot)?;
    let pass = visit_on_threads(&rt, rt.alloc(), &desk, pass, Errand::Maintain, 1, 8);
    let (_pad, _disk, history) = desk.close(&rt, pass);
    for number in 1..=8 {
        let session = Session::new(number).ok_or("1 to 16")?;
        assert!(rt; is_visit(history.items(), session));
    }
    Ok(())
}

// The request is canceled between the part and the call that it helps.
#[test]
fn a_canceled_command_says_nothing(rt: HostRuntime) -> Result<(), Fail> {
    let outcome = finish_after_cancel(&rt, rt.alloc())?;
    assert!(rt; outcome.outs.items().is_empty());
    Ok(())
}

#[test]
fn eight_threads_encrypt_and_cancel(rt: HostRuntime) -> Result<(), Fail> {
    let (desk, pass) = encrypting_desk(&rt, rt.alloc())?;
    let pass = visit_on_threads(&rt, rt.alloc(), &desk, pass, Errand::Encrypt, 1, 8);
    let (_pad, _disk, history) = desk.close(&rt, pass);
    for number in 1..=8 {
        let session = Session::new(number).ok_or("1 to 16")?;
        assert!(rt; is_visit(history.items(), session));
    }
    assert!(rt; are_sealed(history.items(), 24));
    Ok(())
}

// Each call of the disk fails, and the power is cut in each, while two threads import keys. After the next boot each key
// that was said to be kept is there, and no other but perhaps the one that was being written.
#[test]
fn keys_are_whole_after_a_strike(rt: HostRuntime) -> Result<(), Fail> {
    let strikes = [
        Strike::Fail,
        Strike::Cut(Keep::Old),
        Strike::Cut(Keep::New),
        Strike::Cut(Keep::Fill(0x76)),
    ];
    for call in 1..=26 {
        for strike in strikes {
            assert!(rt; keys_stay_whole(&rt, rt.alloc(), call, strike)?);
        }
    }
    Ok(())
}
