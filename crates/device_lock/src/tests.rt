//! Calls one after another, against answers and lines written down by hand.
use crate::{Lock, LockAnswer, NotLocked};
use pad_words::Session;

#[derive(Clone, Copy)]
enum Call {
    Ask,
    Release,
    Leave,
}

/// What a call answers: granted, waiting for a session, the next session that is granted, if there is one, or refused.
#[derive(Clone, Copy, Debug, PartialEq, Eq)]
enum Answer {
    Granted,
    Waiting(u8),
    Next(Option<u8>),
    Refused(NotLocked),
}

/// A call, its session, its answer, and the line after it.
type Row = (Call, u8, Answer, &'static [u8]);

const ROWS: [Row; 16] = [
    (Call::Release, 3, Answer::Refused(NotLocked), &[]),
    (Call::Ask, 3, Answer::Granted, &[3]),
    (Call::Ask, 3, Answer::Granted, &[3]),
    (Call::Ask, 1, Answer::Waiting(3), &[3, 1]),
    (Call::Ask, 16, Answer::Waiting(3), &[3, 1, 16]),
    (Call::Ask, 1, Answer::Waiting(3), &[3, 1, 16]),
    (Call::Release, 1, Answer::Refused(NotLocked), &[3, 1, 16]),
    (Call::Release, 2, Answer::Refused(NotLocked), &[3, 1, 16]),
    (Call::Release, 3, Answer::Next(Some(1)), &[1, 16]),
    (Call::Ask, 3, Answer::Waiting(1), &[1, 16, 3]),
    (Call::Leave, 16, Answer::Next(None), &[1, 3]),
    (Call::Leave, 2, Answer::Next(None), &[1, 3]),
    (Call::Leave, 1, Answer::Next(Some(3)), &[3]),
    (Call::Leave, 3, Answer::Next(None), &[]),
    (Call::Ask, 9, Answer::Granted, &[9]),
    (Call::Release, 9, Answer::Next(None), &[]),
];

fn answer_of(lock: &mut Lock, call: Call, session: Session) -> Answer {
    match call {
        Call::Ask => match lock.ask(session) {
            LockAnswer::Granted => Answer::Granted,
            LockAnswer::Waiting(holder) => Answer::Waiting(holder.number),
        },
        Call::Release => match lock.release(session) {
            Ok(next) => Answer::Next(next.map(|next| next.number)),
            Err(refused) => Answer::Refused(refused),
        },
        Call::Leave => Answer::Next(lock.leave(session).map(|next| next.number)),
    }
}

fn is_line(lock: &Lock, numbers: &[u8]) -> bool {
    let line = lock.items();
    line.len() == numbers.len()
        && line
            .iter()
            .zip(numbers)
            .all(|(session, &number)| session.number == number)
}

#[test]
fn calls(rt: HostRuntime) {
    let mut lock = Lock::free();
    for (place, (call, number, answer, line)) in ROWS.into_iter().enumerate() {
        match Session::new(number) {
            Some(session) => assert_eq!(rt;
                answer_of(&mut lock, call, session),
                answer,
                "row {place}"
            ),
            None => assert!(rt; false, "row {place}"),
        }
        assert!(rt; is_line(&lock, line), "row {place}");
    }
}

#[test]
fn sixteen_sessions(rt: HostRuntime) {
    let mut lock = Lock::free();
    for number in 1..17 {
        if let Some(session) = Session::new(number) {
            let _ = lock.ask(session);
        }
    }
    assert!(rt;
        is_line(
            &lock,
            &[1, 2, 3, 4, 5, 6, 7, 8, 9, 10, 11, 12, 13, 14, 15, 16]
        )
    );
    assert_eq!(rt; lock.holder().map(|session| session.number), Some(1));
}
