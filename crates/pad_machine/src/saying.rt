// What is said, where there is room for it.
ghost use Rattle.std.specs.Prelude.{◌≡◌, ◌<◌, ◌≤◌, ◌+◌, ◌++◌, ◌∷◌, [], length, map};
ghost use Rattle.pad_steps.specs.declared.answers.Out.TheVariants.{Event as EventOf};
ghost use Rattle.flat_machine.specs.Sessions.{execute_event, service_events};

use pad_steps::{Class, Event, Out, Outs};
use pad_words::Session;
use session_book::Book;

/// Says one thing.
pub fn say(out: &mut Outs, item: Out)
    requires { 0 < out.old.spare }
    ensures items { out.new.items ≡ out.old.items ++ item ∷ [] }
    ensures spare { out.old.spare ≤ out.new.spare + 1 }
{
    match out.push(item) {
        Ok(()) => {}
        Err(_) => unreachable!(),
    }
}

/// Sends an event of an entry to its session, if it listens.
pub fn send(book: &Book, session: Session, event: Event, out: &mut Outs)
    requires { 0 < out.old.spare }
    ensures items { out.new.items ≡ out.old.items ++ execute_event book.now session event }
    ensures spare { out.old.spare ≤ out.new.spare + 1 }
{
    if book.hears(session, Class::Execute) {
        say(out, Out::Event(session, event));
    }
}

/// Sends an event to every session that listens to service events.
pub fn announce(book: &Book, event: &Event, out: &mut Outs)
    requires { length book.now ≤ out.old.spare }
    ensures { out.new.items ≡ out.old.items ++ service_events book.now event.now }
{
    let hearers = book.hearers(Class::Service);
    announce_to(hearers.items(), event, out);
}

// Sends an event to these sessions.
fn announce_to(sessions: &[Session], event: &Event, out: &mut Outs)
    requires { length sessions.now ≤ out.old.spare }
    ensures { out.new.items ≡ out.old.items ++ map (λ session. EventOf session event.now) sessions.now }
{
    for session in sessions {
        say(out, Out::Event(*session, event.copy()));
    }
}
