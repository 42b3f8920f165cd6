//! The queue: pending requests in a slab, linked in order of ids, and each request's place in a list by id.
ghost use Rattle.std.specs.Prelude.{ℕ, ◌≡◌, ◌<◌, ◌≤◌, ◌+◌, ◌++◌, ◌∷◌, [], IsSome, IsNone, IsOk, IfOk, OnOk, OnErr, IfErr, length};
ghost use Rattle.std.specs.Option.{option_copied, option_map};
ghost use Rattle.request_queue.specs.Queue.{IsIdOf, IsPending, IsRefusal, found_of};
ghost use Rattle.request_queue.specs.Requests.{HasIds, HasAtMostOneInWork, begun_by_id, eligible, ended_where, first_where, gone_count, has_id, is_due, look as looked, may_begin, pending_by_id, pending_count, request_command, request_id, request_session, submitted, request_in_work};

use crate::links::{Relink, link_both};
use crate::lookups::{
    chain_of, command_of, due_from, id_or_none, look_at, next_waiting, owner_of, running_after,
};
use crate::nodes::{Node, Place, key_of};
use crate::requests::Request;
use pad_words::{NoMemory, Session};
use slab::Slab;
use std::alloc::Global;
use std::marker::Model;

/// How many requests of a session may be pending.
const MOST_PENDING: u8 = 16;

/// The chain of all pending requests, and one of each session.
const CHAINS: usize = 17;

/// Why a request was not taken. Its command is handed back.
#[derive(Drop)]
pub enum QueueFault<C> {
    /// So many requests of the session are pending: 16.
    QueueFull(u8, C),
    /// Memory was wanting.
    NoMemory(C),
}

/// What a session finds of an id.
#[derive(Drop)]
pub enum Found<'a, R> {
    /// The request waits or is in work.
    Pending,
    /// The request ended with this reply.
    Ended(&'a R),
    /// The session has no such request above its floor.
    InvalidReqId,
}

/// The requests of a run, each with its command and, once it ended, its reply.
#[derive(Drop)]
pub struct Queue<C, R> {
    nodes: Slab<Node<C>>,
    places: Vec<Place<R>>,
    // The first and the last pending request of each chain: at 0 of all, and at 1 to 16 of that session. 0 where none is.
    heads: [u32; CHAINS],
    tails: [u32; CHAINS],
    // How many requests of each session are pending, at 1 to 16.
    counts: [u8; CHAINS],
    // The request in work, 0 where none is.
    running: u32,
    // How many requests ended.
    gone: u32,
}

impl<C, R> Model for Queue<C, R> {
    ghost use Rattle.std.specs.Prelude.{min, vec_capacity, vec_len, ◌-◌};
    ghost use Rattle.request_queue.specs.Nodes.{Sound, rows_of, slab_room};
    ghost use Rattle.request_queue.specs.RequestList.{RequestList};

    ghost Value = { RequestList C R };

    ghost view = { λ q. record {
      rows = rows_of q.running q.nodes q.places.items;
      spare = min (vec_capacity q.places - vec_len q.places) (slab_room q.nodes);
    } };

    ghost invariant = { λ q. Sound q.running q.gone q.nodes q.places.items q.heads q.tails q.counts };
}

impl<C, R> Queue<C, R> {
    /// A queue without requests. It takes no memory yet.
    pub fn new(alloc: Global) -> Queue<C, R>
        ensures { result.rows ≡ [] }
    {
        Queue {
            nodes: Slab::new(alloc),
            places: Vec::new(alloc),
            heads: [0; CHAINS],
            tails: [0; CHAINS],
            counts: [0; CHAINS],
            running: 0,
            gone: 0,
        }
    }

    /// The id that was drawn last, 0 before the first.
    pub fn last_id(&self) -> u32
        ensures last { result ≡ length self.now.rows }
        ensures ids { HasIds self.now.rows }
    {
        self.places.len() as u32
    }

    /// How many requests ended.
    pub fn ended(&self) -> u32
        ensures { result ≡ gone_count self.now.rows }
    {
        self.gone
    }

    /// How many requests of the session are pending, 0 to 16.
    pub fn pending(&self, session: Session) -> u8
        ensures count { result ≡ pending_count session self.now.rows }
        ensures few { result ≤ 16 }
    {
        self.counts[session.number as usize]
    }

    /// The request in work. At most one is.
    pub fn in_work(&self) -> Option<u32>
        ensures request_in_work { result ≡ option_map request_id (request_in_work self.now.rows) }
        ensures same { IsIdOf result (request_in_work self.now.rows) self.now.rows }
        ensures pending { IsPending result self.now.rows }
        ensures one { HasAtMostOneInWork self.now.rows }
        ensures ids { HasIds self.now.rows }
    {
        id_or_none(self.running)
    }

    /// The owner of a pending request. None exactly where the id is not pending.
    pub fn owner(&self, id: u32) -> Option<Session>
        ensures { result ≡ option_map request_session (pending_by_id id self.now.rows) }
    {
        owner_of(&self.nodes, &self.places, id)
    }

    /// The command of a pending request. None exactly where the id is not pending.
    pub fn command(&self, id: u32) -> Option<&C>
        ensures { option_copied result ≡ option_map request_command (pending_by_id id self.now.rows) }
    {
        command_of(&self.nodes, &self.places, id)
    }

    /// The request that comes into work next: the first that waits, among the lock holder's where there is a holder.
    pub fn next_for(&self, holder: Option<Session>) -> Option<u32>
        ensures eligible { result ≡ option_map request_id (eligible holder self.now.rows) }
        ensures same { IsIdOf result (eligible holder self.now.rows) self.now.rows }
        ensures pending { IsPending result self.now.rows }
        ensures ids { HasIds self.now.rows }
    {
        let chain = chain_of(holder);
        id_or_none(next_waiting(
            &self.nodes,
            &self.places,
            chain,
            self.heads[chain],
            self.running,
        ))
    }

    /// The first pending request, of the session where one is named.
    pub fn first_pending(&self, session: Option<Session>) -> Option<u32>
        ensures first { result ≡ option_map request_id (first_where (may_begin session) self.now.rows) }
        ensures same { IsIdOf result (first_where (may_begin session) self.now.rows) self.now.rows }
        ensures pending { IsPending result self.now.rows }
    {
        id_or_none(self.heads[chain_of(session)])
    }

    /// The first pending request whose limit is reached when the clock shows so many ticks. A limit of 0 is none.
    pub fn first_due(&self, now: u64) -> Option<u32>
        ensures first { result ≡ option_map request_id (first_where (is_due now) self.now.rows) }
        ensures same { IsIdOf result (first_where (is_due now) self.now.rows) self.now.rows }
        ensures pending { IsPending result self.now.rows }
    {
        id_or_none(due_from(&self.nodes, &self.places, self.heads[0], now))
    }

    /// What the session finds of an id above its floor.
    pub fn look(&self, session: Session, floor: u32, id: u32) -> Found<'_, R>
        ensures { found_of result ≡ looked session floor id self.now.rows }
    {
        if id <= floor {
            return Found::InvalidReqId;
        }
        match self.places.get(id as usize - 1) {
            Some(place) => look_at(&self.nodes, place, session),
            None => Found::InvalidReqId,
        }
    }

    /// Makes room for one more request, without memory where a place is spare. The requests are as before, also after
    /// want of memory.
    pub fn reserve(&mut self) -> Result<(), NoMemory>
        ensures rows { self.new.rows ≡ self.old.rows }
        ensures room { OnOk result (0 < self.new.spare) }
        ensures kept { self.old.spare ≤ self.new.spare }
        ensures spare { 0 < self.old.spare → IsOk result }
    {
        if self.places.reserve(1).is_err() || self.nodes.reserve(1).is_err() {
            return Err(NoMemory);
        }
        Ok(())
    }

    /// A request that waits, put last with the next id. `now` is the clock in ticks, and the limit is in ticks too, 0 for
    /// none. The room was made by `reserve`.
    pub fn submit_reserved(&mut self, session: Session, now: u64, limit: u32, command: C) -> u32
        requires spare { 0 < self.old.spare }
        requires room { pending_count session self.old.rows < 16 }
        requires ids { length self.old.rows < 4294967294 }
        ensures id { result ≡ length self.old.rows + 1 }
        ensures last { self.new.rows ≡ submitted session now limit command self.old.rows }
        ensures spare { self.old.spare ≤ self.new.spare + 1 }
    {
        let chain = session.number as usize;
        let id = self.places.len() as u32 + 1;
        let (all_last, own_last) = (self.tails[0], self.tails[chain]);
        let request = Request {
            id,
            session,
            submitted: now,
            limit,
            command,
        };
        let node = Node::behind(request, all_last, own_last);
        let all = Relink::behind(all_last, id);
        let own = Relink::behind(own_last, id);
        let key = self.nodes.insert_reserved(node);
        self.places.push_reserved(Place::Linked(key));
        link_both(
            &mut self.nodes,
            &mut self.heads,
            &mut self.tails,
            &self.places,
            chain,
            &all,
            &own,
        );
        self.counts[chain] += 1;
        id
    }

    /// A request that waits, put last with the next id. Refused with QUEUEFULL exactly where 16 of the session are pending;
    /// where it is refused, or memory is wanting, the requests are as before and the command is handed back.
    pub fn submit(
        &mut self,
        session: Session,
        now: u64,
        limit: u32,
        command: C,
    ) -> Result<u32, QueueFault<C>>
        requires { length self.old.rows < 4294967294 }
        ensures id { IfOk result (λ id. id ≡ length self.old.rows + 1) }
        ensures ok { OnOk result (self.new.rows ≡ submitted session now limit command self.old.rows) }
        ensures err { OnErr result (self.new.rows ≡ self.old.rows) }
        ensures room { OnOk result (pending_count session self.old.rows < 16) }
        ensures fault { IfErr result (IsRefusal session command self.old.rows) }
        ensures spare { 0 < self.old.spare → pending_count session self.old.rows < 16 → IsOk result }
    {
        if self.pending(session) >= MOST_PENDING {
            return Err(QueueFault::QueueFull(MOST_PENDING, command));
        }
        if self.reserve().is_err() {
            return Err(QueueFault::NoMemory(command));
        }
        Ok(self.submit_reserved(session, now, limit, command))
    }

    /// A request that waits comes into work.
    pub fn begin(&mut self, id: u32)
        requires idle { IsNone (request_in_work self.old.rows) }
        requires pending { IsSome (pending_by_id id self.old.rows) }
        ensures begun { self.new.rows ≡ begun_by_id id self.old.rows }
        ensures spare { self.new.spare ≡ self.old.spare }
    {
        self.running = id;
    }
}

impl<C: Drop, R: Drop> Queue<C, R> {
    /// A pending request ends with this reply. It takes no memory.
    pub fn finish(&mut self, id: u32, reply: R)
        requires { IsSome (pending_by_id id self.old.rows) }
        ensures ended { self.new.rows ≡ ended_where (has_id id) reply self.old.rows }
        ensures spare { self.old.spare ≤ self.new.spare }
    {
        let Some(key) = key_of(&self.places, id) else {
            return;
        };
        let Some(node) = self.nodes.get(key) else {
            return;
        };
        let session = node.request.session;
        let all = Relink::without(&node.all);
        let own = Relink::without(&node.own);
        let chain = session.number as usize;
        link_both(
            &mut self.nodes,
            &mut self.heads,
            &mut self.tails,
            &self.places,
            chain,
            &all,
            &own,
        );
        self.nodes.try_remove(key);
        self.places[id as usize - 1] = Place::Ended(id, session, reply);
        self.counts[chain] -= 1;
        self.gone += 1;
        self.running = running_after(self.running, id);
    }
}
