// What is changed in what is the same in twins. No call takes memory.
ghost use Rattle.std.specs.Prelude.{◌≡◌, ◌<◌, ◌≤◌, ◌+◌, ◌++◌, ◌∷◌, [], IsSome, IsTrue, Some, false, length};
ghost use Rattle.device_lock.specs.LockLine.{holder_of};
ghost use Rattle.flat_machine.specs.EntrySteps.{part_check};
ghost use Rattle.flat_machine.specs.Sessions.{execute_event};
ghost use Rattle.flat_machine.specs.Settings.{triple_des};
ghost use Rattle.flat_machine.specs.State.{accuses};
ghost use Rattle.pad_machine.specs.Prepares.{IsInWork, IsNext, KeepsRequests, MaySubmit};
ghost use Rattle.pad_machine.specs.Stands.{DrawnFew, shared_of};
ghost use Rattle.pad_steps.specs.declared.answers.Out.TheVariants.{Ended as OutEnded};
ghost use Rattle.pad_steps.specs.declared.answers.Reply.TheVariants.{No as ReplyNo};
ghost use Rattle.request_queue.specs.Requests.{begun, finished, refused_at_begin, submitted};
ghost use Rattle.secure_entry.specs.PartBuffers.{is_part_length};
ghost use Rattle.session_book.specs.Rising.{opened};
ghost use Rattle.session_book.specs.Sessions.{is_open, with_classes, with_session};

use super::Shared;
use crate::saying::{announce, say, send};
use check_values::check_value;
use flat_machine::types::Owner;
use key_attributes::KeyRow;
use pad_steps::{Classes, Command, Event, Out, Outs, Refusal, Reply, Verify};
use pad_words::{KeyName, Nibbles, Session};
use pin_blocks::PinWork;
use request_queue::laws::{in_work_by_id, next_by_id};

impl<W: PinWork + Drop> Shared<W> {
    /// The session is opened. It listens to nothing, and sees no request that was drawn before.
    pub fn open(&mut self, session: Session)
        requires closed { is_open session self.old.sessions ≡ false }
        ensures store { self.new.store ≡ self.old.store }
        ensures state { shared_of self.new
            ≡ record (shared_of self.old) { sessions = with_session (opened session (length self.old.requests)) self.old.sessions } }
    {
        let _ = self.sessions.enter(session, self.requests.last_id());
    }

    /// The session's request waits, and this is its id.
    pub fn submit(&mut self, session: Session, limit: u32, command: Command) -> u32
        requires { MaySubmit self.old session }
        ensures id { result ≡ length self.old.requests + 1 }
        ensures store { self.new.store ≡ self.old.store }
        ensures state { shared_of self.new
            ≡ record (shared_of self.old) { requests = submitted session self.old.clock limit command self.old.requests } }
    {
        self.requests
            .submit_reserved(session, self.clock, limit, command)
    }

    /// The session hears these classes.
    pub fn listen(&mut self, session: Session, classes: Classes)
        ensures store { self.new.store ≡ self.old.store }
        ensures state { shared_of self.new
            ≡ record (shared_of self.old) { sessions = with_classes session classes self.old.sessions } }
    {
        let _ = self.sessions.listen(session, classes);
    }

    /// The next request comes into work.
    pub fn begin(&mut self, id: u32)
        requires { IsNext self.old id }
        ensures store { self.new.store ≡ self.old.store }
        ensures state { shared_of self.new
            ≡ record (shared_of self.old) { requests = begun (holder_of self.old.line) self.old.requests } }
    {
        next_by_id::<Command, Reply>();
        self.requests.begin(id);
    }

    /// The next request ends with this refusal as it is taken.
    pub fn refuse_next(&mut self, id: u32, refusal: Refusal)
        requires { IsNext self.old id }
        ensures store { self.new.store ≡ self.old.store }
        ensures state { shared_of self.new
            ≡ record (shared_of self.old) { requests = refused_at_begin (ReplyNo refusal) (holder_of self.old.line) self.old.requests } }
    {
        next_by_id::<Command, Reply>();
        self.requests.finish(id, Reply::No(refusal));
    }

    /// Sends an event of an entry to its session, if it listens.
    pub fn send(&self, session: Session, event: Event, out: &mut Outs)
        requires { 0 < out.old.spare }
        ensures items { out.new.items ≡ out.old.items ++ execute_event self.now.sessions session event }
        ensures spare { out.old.spare ≤ out.new.spare + 1 }
    {
        send(&self.sessions, session, event, out);
    }

    /// The part buffer is emptied.
    pub fn clear_part(&mut self)
        ensures state { shared_of self.new ≡ record (shared_of self.old) { part = [] } }
        ensures store { self.new.store ≡ self.old.store }
        ensures queue { KeepsRequests self.old self.new }
    {
        self.part.clear();
    }

    /// The part buffer holds these nibbles.
    pub fn set_part(&mut self, nibbles: &Nibbles)
        requires { IsTrue (is_part_length (length nibbles.now)) }
        ensures state { shared_of self.new ≡ record (shared_of self.old) { part = nibbles.now } }
        ensures store { self.new.store ≡ self.old.store }
        ensures queue { KeepsRequests self.old self.new }
    {
        self.part.set(nibbles);
    }

    /// The check value of the key part in the buffer. None where the buffer is empty.
    pub fn part_check(&self, mode: Verify) -> Option<[u8; 3]>
        ensures { result ≡ part_check triple_des mode self.now.part }
    {
        check_value(&self.part.value()?, mode)
    }

    /// Whether a used PIN is maintained.
    pub fn is_maintained(&self) -> bool
        ensures { result ≡ self.now.maintain }
    {
        self.is_maintained
    }

    /// From now on a used PIN is maintained, or is not.
    pub fn maintain(&mut self, on: bool)
        ensures state { shared_of self.new ≡ record (shared_of self.old) { maintain = on } }
        ensures store { self.new.store ≡ self.old.store }
        ensures queue { KeepsRequests self.old self.new }
    {
        self.is_maintained = on;
    }

    /// How many fill words were drawn.
    pub fn drawn(&self) -> u64
        ensures { result ≡ self.now.drawn }
    {
        self.drawn
    }

    /// So many fill words more are drawn.
    pub fn draw(&mut self, count: u8)
        requires { DrawnFew self.old }
        ensures state { shared_of self.new ≡ record (shared_of self.old) { drawn = self.old.drawn + count } }
        ensures store { self.new.store ≡ self.old.store }
        ensures queue { KeepsRequests self.old self.new }
    {
        let _ended = self.requests.ended();
        self.drawn += u64::from(count);
    }

    /// The bytes of the store, while it is settled.
    pub fn bytes(&self) -> &[u8]
        requires { IsSome self.now.store.bytes }
        ensures { self.now.store.bytes ≡ Some result.now }
    {
        self.keys.bytes()
    }

    /// The key rows behind their slots.
    pub fn rows(&self) -> &[(u8, KeyRow)]
        ensures rows { result.now ≡ self.now.store.rows }
        ensures few { length result.now ≤ 64 }
    {
        self.keys.rows()
    }

    /// The PIN work.
    pub fn work(&self) -> &W {
        &self.work
    }

    /// The request in work ends with this reply, which is told.
    pub fn end(&mut self, owner: Owner, reply: Reply, told: Reply, out: &mut Outs)
        requires room { 0 < out.old.spare }
        requires at { IsInWork self.old.requests owner.id }
        requires same { told ≡ reply }
        ensures store { self.new.store ≡ self.old.store }
        ensures state { shared_of self.new
            ≡ record (shared_of self.old) { requests = finished reply self.old.requests } }
        ensures items { out.new.items ≡ out.old.items ++ OutEnded owner.session owner.id reply ∷ [] }
        ensures spare { out.old.spare ≤ out.new.spare + 1 }
    {
        in_work_by_id::<Command, Reply>();
        self.requests.finish(owner.id, reply);
        say(out, Out::Ended(owner.session, owner.id, told));
    }

    /// Service listeners hear of the key that a refusal accuses.
    pub fn accuse(&self, refusal: Refusal, accused: Option<KeyName>, out: &mut Outs)
        requires { length self.now.sessions ≤ out.old.spare }
        ensures { out.new.items ≡ out.old.items ++ accuses (shared_of self.now) accused refusal }
    {
        if let Some(name) = accused {
            let event = Event::IllegalKeyAccess(name, refusal);
            announce(&self.sessions, &event, out);
        }
    }
}
