use crate::{Found, Queue, QueueFault};
use pad_words::Session;

// Submits a request where an id is left.
fn submit(queue: &mut Queue<u8, u32>, session: Session, now: u64, limit: u32) -> Option<u32> {
    if queue.last_id() >= 4294967294 {
        return None;
    }
    match queue.submit(session, now, limit, 7) {
        Ok(id) => Some(id),
        Err(_) => None,
    }
}

// Makes room, and submits a request where an id and a place of the session are left.
fn submit_reserved(queue: &mut Queue<u8, u32>, session: Session) -> Option<u32> {
    if queue.reserve().is_err() || queue.last_id() >= 4294967294 || queue.pending(session) >= 16 {
        return None;
    }
    Some(queue.submit_reserved(session, 10, 0, 8))
}

// Whether a further request of the session is refused, and its command handed back.
fn is_full(queue: &mut Queue<u8, u32>, session: Session) -> bool {
    if queue.last_id() >= 4294967294 {
        return false;
    }
    matches!(
        queue.submit(session, 10, 0, 9),
        Err(QueueFault::QueueFull(16, 9))
    )
}

// Begins a request that is pending where none is in work.
fn begin(queue: &mut Queue<u8, u32>, id: u32) -> bool {
    if queue.in_work().is_some() || queue.owner(id).is_none() {
        return false;
    }
    queue.begin(id);
    true
}

// Ends a request that is pending.
fn finish(queue: &mut Queue<u8, u32>, id: u32, reply: u32) -> bool {
    if queue.owner(id).is_none() {
        return false;
    }
    queue.finish(id, reply);
    true
}

#[test]
fn a_million_rounds(rt: HostRuntime) {
    let one = Session::new(1).expect(&rt, "a session");
    let mut queue: Queue<u8, u32> = Queue::new(rt.alloc());
    for round in 1..=1000000u32 {
        assert!(&rt; submit(&mut queue, one, 0, 0) == Some(round));
        assert!(&rt; queue.next_for(None) == Some(round));
        assert!(&rt; begin(&mut queue, round));
        assert!(&rt; queue.first_due(1).is_none());
        assert!(&rt; finish(&mut queue, round, round));
    }
    assert!(&rt; queue.last_id() == 1000000);
    assert!(&rt; queue.ended() == 1000000);
    assert!(&rt; matches!(queue.look(one, 0, 1), Found::Ended(1)));
    assert!(&rt; matches!(queue.look(one, 0, 1000000), Found::Ended(1000000)));
}

// A call on the queue: Submit with a session and a limit, Begin and Finish with an id.
#[derive(Clone, Copy)]
enum Call {
    Submit(Session, u32),
    Begin(u32),
    Finish(u32),
}

// Whether the call is done. A request is submitted at 10 ticks, and its reply is ten times its id.
fn is_done(queue: &mut Queue<u8, u32>, call: Call) -> bool {
    match call {
        Call::Submit(session, limit) => submit(queue, session, 10, limit).is_some(),
        Call::Begin(id) => begin(queue, id),
        Call::Finish(id) => finish(queue, id, id.saturating_mul(10)),
    }
}

// The request in work, the next one for all and for the second session, the first pending one of the first session, the
// first that is due at 15 ticks, and how many ended; 0 for none.
fn found(queue: &Queue<u8, u32>, one: Session, two: Session) -> [u32; 6] {
    [
        queue.in_work().unwrap_or(0),
        queue.next_for(None).unwrap_or(0),
        queue.next_for(Some(two)).unwrap_or(0),
        queue.first_pending(Some(one)).unwrap_or(0),
        queue.first_due(15).unwrap_or(0),
        queue.ended(),
    ]
}

#[test]
fn calls_in_a_row(rt: HostRuntime) {
    let one = Session::new(1).expect(&rt, "a session");
    let two = Session::new(2).expect(&rt, "a session");
    let mut queue: Queue<u8, u32> = Queue::new(rt.alloc());
    let cases = [
        (Call::Submit(one, 0), [0, 1, 0, 1, 0, 0]),
        (Call::Submit(two, 5), [0, 1, 2, 1, 2, 0]),
        (Call::Submit(one, 6), [0, 1, 2, 1, 2, 0]),
        (Call::Submit(two, 0), [0, 1, 2, 1, 2, 0]),
        (Call::Submit(one, 4), [0, 1, 2, 1, 2, 0]),
        (Call::Begin(2), [2, 1, 4, 1, 2, 0]),
        (Call::Finish(3), [2, 1, 4, 1, 2, 1]),
        (Call::Finish(1), [2, 4, 4, 5, 2, 2]),
        (Call::Finish(2), [0, 4, 4, 5, 5, 3]),
        (Call::Begin(4), [4, 5, 0, 5, 5, 3]),
        (Call::Finish(5), [4, 0, 0, 0, 0, 4]),
        (Call::Finish(4), [0, 0, 0, 0, 0, 5]),
        (Call::Submit(one, 0), [0, 6, 0, 6, 0, 5]),
    ];
    for (call, expected) in cases {
        assert!(&rt; is_done(&mut queue, call));
        assert!(&rt; found(&queue, one, two) == expected);
    }
    // a session, its floor, an id, and what it finds: 0 for none, 1 while it is pending, and else the reply
    let looks = [
        (one, 0, 1, 10),
        (two, 0, 2, 20),
        (two, 1, 2, 20),
        (two, 2, 2, 0),
        (one, 0, 2, 0),
        (one, 5, 6, 1),
        (one, 6, 6, 0),
        (two, 0, 6, 0),
        (one, 0, 7, 0),
        (one, 0, 0, 0),
    ];
    for (session, floor, id, expected) in looks {
        let reply = match queue.look(session, floor, id) {
            Found::InvalidReqId => 0,
            Found::Pending => 1,
            Found::Ended(reply) => *reply,
        };
        assert!(&rt; reply == expected);
    }
}

#[test]
fn sixteen_of_a_session(rt: HostRuntime) {
    let one = Session::new(1).expect(&rt, "a session");
    let last = Session::new(16).expect(&rt, "a session");
    let mut queue: Queue<u8, u32> = Queue::new(rt.alloc());
    for id in 1..=16u32 {
        assert!(&rt; submit_reserved(&mut queue, last) == Some(id));
    }
    assert!(&rt; queue.pending(last) == 16);
    assert!(&rt; is_full(&mut queue, last));
    assert!(&rt; submit(&mut queue, one, 10, 0) == Some(17));
    assert!(&rt; finish(&mut queue, 9, 90));
    assert!(&rt; submit(&mut queue, last, 10, 0) == Some(18));
    assert!(&rt; queue.owner(18) == Some(last));
    assert!(&rt; queue.owner(9).is_none());
    assert!(&rt; matches!(queue.command(16), Some(8)));
    assert!(&rt; matches!(queue.command(17), Some(7)));
}
