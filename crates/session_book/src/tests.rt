//! Calls one after another, against answers and rows written down by hand.
use crate::Book;
use pad_steps::{Class, Classes};
use pad_words::Session;

#[derive(Clone, Copy)]
enum Call {
    /// Opened with this floor.
    Enter(u32),
    Depart,
    /// Whether it listens to service events and to execute events.
    Listen(bool, bool),
}

/// A call, its session, its answer, and then the session's floor, the open sessions, and those that hear service events
/// and execute events.
type Row = (
    Call,
    u8,
    bool,
    Option<u32>,
    &'static [u8],
    &'static [u8],
    &'static [u8],
);

const ROWS: [Row; 30] = [
    (Call::Depart, 5, false, None, &[], &[], &[]),
    (Call::Listen(true, true), 5, false, None, &[], &[], &[]),
    (Call::Enter(0), 5, true, Some(0), &[5], &[], &[]),
    (Call::Enter(9), 5, false, Some(0), &[5], &[], &[]),
    (Call::Listen(true, false), 5, true, Some(0), &[5], &[5], &[]),
    (Call::Enter(1), 1, true, Some(1), &[1, 5], &[5], &[]),
    (Call::Enter(7), 16, true, Some(7), &[1, 5, 16], &[5], &[]),
    (
        Call::Listen(true, true),
        16,
        true,
        Some(7),
        &[1, 5, 16],
        &[5, 16],
        &[16],
    ),
    (
        Call::Listen(true, true),
        1,
        true,
        Some(1),
        &[1, 5, 16],
        &[1, 5, 16],
        &[1, 16],
    ),
    (
        Call::Listen(false, true),
        5,
        true,
        Some(0),
        &[1, 5, 16],
        &[1, 16],
        &[1, 5, 16],
    ),
    (
        Call::Listen(false, false),
        5,
        true,
        Some(0),
        &[1, 5, 16],
        &[1, 16],
        &[1, 16],
    ),
    (
        Call::Enter(8),
        10,
        true,
        Some(8),
        &[1, 5, 10, 16],
        &[1, 16],
        &[1, 16],
    ),
    (
        Call::Enter(8),
        9,
        true,
        Some(8),
        &[1, 5, 9, 10, 16],
        &[1, 16],
        &[1, 16],
    ),
    (
        Call::Enter(8),
        12,
        true,
        Some(8),
        &[1, 5, 9, 10, 12, 16],
        &[1, 16],
        &[1, 16],
    ),
    (
        Call::Enter(9),
        11,
        true,
        Some(9),
        &[1, 5, 9, 10, 11, 12, 16],
        &[1, 16],
        &[1, 16],
    ),
    (
        Call::Enter(9),
        2,
        true,
        Some(9),
        &[1, 2, 5, 9, 10, 11, 12, 16],
        &[1, 16],
        &[1, 16],
    ),
    (
        Call::Enter(9),
        15,
        true,
        Some(9),
        &[1, 2, 5, 9, 10, 11, 12, 15, 16],
        &[1, 16],
        &[1, 16],
    ),
    (
        Call::Enter(9),
        14,
        true,
        Some(9),
        &[1, 2, 5, 9, 10, 11, 12, 14, 15, 16],
        &[1, 16],
        &[1, 16],
    ),
    (
        Call::Enter(9),
        13,
        true,
        Some(9),
        &[1, 2, 5, 9, 10, 11, 12, 13, 14, 15, 16],
        &[1, 16],
        &[1, 16],
    ),
    (
        Call::Enter(9),
        3,
        true,
        Some(9),
        &[1, 2, 3, 5, 9, 10, 11, 12, 13, 14, 15, 16],
        &[1, 16],
        &[1, 16],
    ),
    (
        Call::Enter(9),
        4,
        true,
        Some(9),
        &[1, 2, 3, 4, 5, 9, 10, 11, 12, 13, 14, 15, 16],
        &[1, 16],
        &[1, 16],
    ),
    (
        Call::Enter(9),
        6,
        true,
        Some(9),
        &[1, 2, 3, 4, 5, 6, 9, 10, 11, 12, 13, 14, 15, 16],
        &[1, 16],
        &[1, 16],
    ),
    (
        Call::Enter(9),
        8,
        true,
        Some(9),
        &[1, 2, 3, 4, 5, 6, 8, 9, 10, 11, 12, 13, 14, 15, 16],
        &[1, 16],
        &[1, 16],
    ),
    (
        Call::Enter(4_294_967_295),
        7,
        true,
        Some(4_294_967_295),
        &ALL,
        &[1, 16],
        &[1, 16],
    ),
    (Call::Enter(3), 16, false, Some(7), &ALL, &[1, 16], &[1, 16]),
    (
        Call::Listen(true, false),
        7,
        true,
        Some(4_294_967_295),
        &ALL,
        &[1, 7, 16],
        &[1, 16],
    ),
    (
        Call::Depart,
        1,
        true,
        None,
        &[2, 3, 4, 5, 6, 7, 8, 9, 10, 11, 12, 13, 14, 15, 16],
        &[7, 16],
        &[16],
    ),
    (
        Call::Depart,
        1,
        false,
        None,
        &[2, 3, 4, 5, 6, 7, 8, 9, 10, 11, 12, 13, 14, 15, 16],
        &[7, 16],
        &[16],
    ),
    (
        Call::Depart,
        16,
        true,
        None,
        &[2, 3, 4, 5, 6, 7, 8, 9, 10, 11, 12, 13, 14, 15],
        &[7],
        &[],
    ),
    (
        Call::Enter(20),
        1,
        true,
        Some(20),
        &[1, 2, 3, 4, 5, 6, 7, 8, 9, 10, 11, 12, 13, 14, 15],
        &[7],
        &[],
    ),
];

const ALL: [u8; 16] = [1, 2, 3, 4, 5, 6, 7, 8, 9, 10, 11, 12, 13, 14, 15, 16];

fn answer_of(book: &mut Book, call: Call, session: Session) -> bool {
    match call {
        Call::Enter(floor) => book.enter(session, floor),
        Call::Depart => book.depart(session),
        Call::Listen(service, execute) => book.listen(session, Classes { service, execute }),
    }
}

fn are_open(book: &Book, numbers: &[u8]) -> bool {
    let rows = book.rows();
    rows.len() == numbers.len()
        && rows
            .iter()
            .zip(numbers)
            .all(|(row, &number)| row.session.number == number)
}

// Whether these sessions hear the class, and this session is told so of itself.
fn are_hearers(book: &Book, session: Session, class: Class, numbers: &[u8]) -> bool {
    let hearers = book.hearers(class);
    let sessions = hearers.items();
    sessions.len() == numbers.len()
        && sessions
            .iter()
            .zip(numbers)
            .all(|(heard, &number)| heard.number == number)
        && book.hears(session, class) == numbers.contains(&session.number)
}

#[test]
fn calls(rt: HostRuntime) {
    let mut book = Book::empty();
    for (place, (call, number, answer, floor, open, service, execute)) in ROWS
        .into_iter()
        .enumerate()
    {
        match Session::new(number) {
            Some(session) => {
                assert_eq!(rt; answer_of(&mut book, call, session), answer, "row {place}");
                assert_eq!(rt; book.floor(session), floor, "row {place}");
                assert!(rt; are_open(&book, open), "row {place}");
                assert!(rt;
                    are_hearers(&book, session, Class::Service, service),
                    "row {place}"
                );
                assert!(rt;
                    are_hearers(&book, session, Class::Execute, execute),
                    "row {place}"
                );
            }
            None => assert!(rt; false, "row {place}"),
        }
    }
}
