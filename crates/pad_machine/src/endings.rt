// Pending requests that end together: by Close, by Cancel, by Tick, or as the power goes.
ghost use Rattle.std.specs.Prelude.{◌≡◌, ◌≢◌, ◌≤◌, ◌+◌, ◌++◌, ◌&&◌, length, nat_lt};
ghost use Rattle.std.specs.Option.{option_map};
ghost use Rattle.pad_machine.specs.Endings.{all_ended, endings_told, is_meant, meant_in};
ghost use Rattle.pad_machine.specs.declared.endings.Ending.TheVariants.{Named};
ghost use Rattle.pad_words.specs.Numbers.{same_session};
ghost use Rattle.request_queue.specs.Queue.{IsIdOf, IsPending};
ghost use Rattle.request_queue.specs.Requests.{first_where, request_id};

use crate::saying::say;
use pad_steps::{Command, Out, Outs, Refusal, Reply};
use pad_words::Session;
use request_queue::Queue;
use request_queue::laws::one_after_another;

/// Which pending requests end.
#[derive(Clone, Copy, Debug, PartialEq, Eq)]
pub enum Ending {
    /// All.
    All,
    /// Those of the session.
    Of(Session),
    /// The one that the session names by its id, above the session's floor. The id 0 names all of the session.
    Named(Session, u32, u32),
    /// Those whose limit is reached when the clock shows so many ticks.
    Due(u64),
}

/// The pending requests that are meant end with this refusal, in order of ids, and each is told so.
pub fn end_requests(
    requests: &mut Queue<Command, Reply>,
    ending: &Ending,
    refusal: &Refusal,
    out: &mut Outs,
)
    requires room { length (meant_in ending.now requests.old.rows) ≤ out.old.spare }
    ensures requests { requests.new.rows ≡ all_ended ending.now refusal.now requests.old.rows }
    ensures items { out.new.items ≡ out.old.items ++ endings_told ending.now refusal.now requests.old.rows }
    ensures spare { out.old.spare ≤ out.new.spare + length (meant_in ending.now requests.old.rows) }
{
    one_after_another::<Command, Reply>();
    while let Some(id) = first_meant(requests, ending) {
        let _last = requests.last_id();
        match requests.owner(id) {
            Some(session) => {
                requests.finish(id, Reply::No(refusal.copy()));
                say(out, Out::Ended(session, id, Reply::No(refusal.copy())));
            }
            None => unreachable!(),
        }
    }
}

/// How many pending requests a session means by this id.
pub fn count_named(requests: &Queue<Command, Reply>, session: Session, floor: u32, id: u32) -> u16
    ensures { result ≡ length (meant_in (Named session floor id) requests.now.rows) }
{
    if id == 0 {
        return u16::from(requests.pending(session));
    }
    u16::from(named(requests, session, floor, id).is_some())
}

// The first pending request that is meant.
fn first_meant(requests: &Queue<Command, Reply>, ending: &Ending) -> Option<u32>
    ensures first { result ≡ option_map request_id (first_where (is_meant ending.now) requests.now.rows) }
    ensures same { IsIdOf result (first_where (is_meant ending.now) requests.now.rows) requests.now.rows }
    ensures pending { IsPending result requests.now.rows }
{
    match ending {
        Ending::All => requests.first_pending(None),
        Ending::Of(session) => requests.first_pending(Some(*session)),
        Ending::Named(session, floor, id) => {
            if *id == 0 {
                return requests.first_pending(Some(*session));
            }
            named(requests, *session, *floor, *id)
        }
        Ending::Due(clock) => requests.first_due(*clock),
    }
}

// The pending request of this id, where it is of the session and above its floor.
fn named(requests: &Queue<Command, Reply>, session: Session, floor: u32, id: u32) -> Option<u32>
    requires { id ≢ 0 }
    ensures first { result ≡ option_map request_id (first_where (is_meant (Named session floor id)) requests.now.rows) }
    ensures same { IsIdOf result (first_where (is_meant (Named session floor id)) requests.now.rows) requests.now.rows }
    ensures pending { IsPending result requests.now.rows }
    ensures few { length (meant_in (Named session floor id) requests.now.rows) ≤ 1 }
{
    one_after_another::<Command, Reply>();
    let _last = requests.last_id();
    match requests.owner(id) {
        Some(owner) if is_above(owner, session, floor, id) => Some(id),
        _ => None,
    }
}

// Whether the id of a request of this owner is one of the session, above its floor.
fn is_above(owner: Session, session: Session, floor: u32, id: u32) -> bool
    ensures { result ≡ (same_session owner session && nat_lt floor id) }
{
    owner.number == session.number && floor < id
}
