//! The calls of a turn.
ghost use Rattle.std.specs.Prelude.{◌≡◌, ◌≢◌, ◌<◌, ◌≤◌, ◌+◌, ◌*◌, ◌^◌, ◌++◌, ◌∷◌, [], length, Option, Some, None, IfOk, IfErr, IfNone, IfSome, OnErr};
ghost use Rattle.turnstile.specs.declared.view.Stage.TheVariants.{Idle, Waiting, Served};
ghost use Rattle.turnstile.specs.declared.held.Held.{Held};
ghost use Rattle.turnstile.specs.declared.machine.Entry.{Entry};
ghost use Rattle.turnstile.specs.Rules.{StandsFrom, GotTurn, Begun, Carries, entries_of, NotesWithin, first_view, grown, passes_known, with_new_seat, new_seat, joined, Settled};
ghost use Rattle.turnstile.specs.Entries.{Refuses, entry};
ghost use Rattle.turnstile.specs.Numbers.{TellsPasses};
ghost use Rattle.turnstile.specs.Turns.{view, made_with, IsPassOf, Enters, Sees, Closes};

use crate::held::{Entered, Held};
use crate::history::History;
use crate::machine::{CallFault, Entry, Machine};
use crate::rule::{Advance, Draw, Glancing, Look, Pass, Post, Seating, Settle};
use crate::turn::Turn;
use atomic_table::Table;
use pad_words::NoMemory;
use std::alloc::{AllocError, Global};
use std::snapshot::Snapshot;
use std::sync::Wait;
use std::thread;

/// The word that counts the tickets drawn.
const DRAWN: usize = 0;

/// The word that counts the turns served.
const SERVED: usize = 1;

/// The word that shows the length of the history and the status after it.
const BOARD: usize = 2;

/// What a glance shows: the length of the history, and the status after it.
#[derive(Clone, Copy, Debug, PartialEq, Eq)]
pub struct Glance {
    pub length: u32,
    pub status: u64,
}

/// What a call gives: the place of its entry in the history, counted from 0, and its outcome.
#[derive(Drop)]
pub struct Given<R> {
    pub place: u32,
    pub outcome: R,
}

impl<M: Machine> Turn<M> {
    // Draws a ticket, and gives its number.
    fn draw<W: Wait>(&self, rt: &W, pass: &mut Pass<M>) -> u64
        requires { IsPassOf self.now pass.old }
        ensures pass { (pass.new.table_id ≡ pass.old.table_id) × (pass.new.id ≡ pass.old.id) }
        ensures ticket { pass.new.me ≡ (record (view pass.old) { stage = Waiting result }, []) }
    {
        let shared = &self.table.shared;
        for _ in rt.forever() {
            let next = shared.peek(DRAWN);
            if next < u64::MAX {
                let was = shared.compare_exchange::<Draw>(pass, DRAWN, next, next + 1);
                if was == next {
                    return was;
                }
            }
            thread::yield_now();
        }
        unreachable!()
    }

    // Looks how many turns were served. Where the ticket is next, the slot is then out with the pass.
    fn look(&self, pass: &mut Pass<M>, ticket: u64) -> u64
        requires pass { pass.old.table_id ≡ self.now.table.shared.table_id }
        requires ticket { pass.old.me.0.stage ≡ Waiting ticket }
        ensures pass { (pass.new.table_id ≡ pass.old.table_id) × (pass.new.id ≡ pass.old.id) }
        ensures turned { result ≡ ticket → GotTurn (StandsFrom M.stands M.origin (view pass.old).origin) M.legal M.status_after pass.old.me pass.new.me }
        ensures waits { result ≢ ticket → pass.new.me ≡ pass.old.me }
    {
        self.table.shared.load::<Look<M>>(pass, SERVED)
    }

    // How many turns were served, where that of the ticket has not come. Where it has, the slot is then out with the pass.
    fn turns_before(&self, pass: &mut Pass<M>, ticket: u64) -> Option<u64>
        requires pass { pass.old.table_id ≡ self.now.table.shared.table_id }
        requires ticket { pass.old.me.0.stage ≡ Waiting ticket }
        ensures pass { (pass.new.table_id ≡ pass.old.table_id) × (pass.new.id ≡ pass.old.id) }
        ensures turned { IfNone result (GotTurn (StandsFrom M.stands M.origin (view pass.old).origin) M.legal M.status_after pass.old.me pass.new.me) }
        ensures waits { IfSome result (λ _. pass.new.me ≡ pass.old.me) }
    {
        let served = self.look(pass, ticket);
        if served == ticket { None } else { Some(served) }
    }

    // Waits until the ticket is served. The slot is then out with the pass.
    fn await_turn<W: Wait>(&self, rt: &W, pass: &mut Pass<M>, ticket: u64)
        requires pass { (pass.old.table_id ≡ self.now.table.shared.table_id) × (pass.old.me.1 ≡ []) }
        requires ticket { pass.old.me.0.stage ≡ Waiting ticket }
        ensures pass { (pass.new.table_id ≡ pass.old.table_id) × (pass.new.id ≡ pass.old.id) }
        ensures turned { GotTurn (StandsFrom M.stands M.origin (view pass.old).origin) M.legal M.status_after pass.old.me pass.new.me }
    {
        for _ in rt.forever() {
            let Some(served) = self.turns_before(pass, ticket) else {
                return;
            };
            self.table
                .shared
                .park(rt, SERVED, (served % (1 << 32)) as u32);
        }
        unreachable!()
    }

    // Takes the machine out of the slot that the pass has.
    fn take_machine(&self, pass: &mut Pass<M>) -> Held<M, M::Op, M::Outcome>
        requires { (pass.old.table_id ≡ self.now.table.shared.table_id) × ((h : Held M M.Op M.Outcome) × (pass.old.me.1 ≡ (0, Some h) ∷ [])) }
        ensures pass { (pass.new.table_id ≡ pass.old.table_id) × (pass.new.id ≡ pass.old.id) }
        ensures taken { (pass.old.me.1 ≡ (0, Some result) ∷ []) × (pass.new.me ≡ (pass.old.me.0, (0, None) ∷ [])) }
    {
        match self.table.shared.exchange(pass, 0, None) {
            Some(held) => held,
            None => unreachable!(),
        }
    }

    // Waits for a turn of its own. The slot is then out with the pass.
    fn begin<W: Wait>(&self, rt: &W, pass: &mut Pass<M>)
        requires { IsPassOf self.now pass.old }
        ensures pass { (pass.new.table_id ≡ pass.old.table_id) × (pass.new.id ≡ pass.old.id) }
        ensures begun { Begun (StandsFrom M.stands M.origin (view pass.old).origin) M.legal M.status_after (view pass.old) pass.new.me }
    {
        let ticket = self.draw(rt, pass);
        self.await_turn(rt, pass, ticket);
    }

    // Applies the operation to the machine in the slot, with what help there is.
    fn apply(
        &self,
        pass: &mut Pass<M>,
        op: M::Op,
        help: Option<M::Help>,
    ) -> Result<Entered<M::Outcome>, CallFault<M::Op>>
        requires pass { pass.old.table_id ≡ self.now.table.shared.table_id }
        requires held { Carries (StandsFrom M.stands M.origin (view pass.old).origin) pass.old.me (entries_of (view pass.old).seen) }
        requires short { length (view pass.old).seen ≤ 1048576 }
        requires allowed { M.allows op }
        ensures pass { (pass.new.table_id ≡ pass.old.table_id) × (pass.new.id ≡ pass.old.id) × (pass.new.me.0 ≡ pass.old.me.0) }
        ensures ok { IfOk result (λ r. let after = entries_of (view pass.new).seen ++ entry op r.outcome ∷ [] in Carries (StandsFrom M.stands M.origin (view pass.new).origin) pass.new.me after × (r.board ≡ length after * 2 ^ 43 + M.status_after after) × (M.status_after after < 2 ^ 43) × (r.place ≡ length (view pass.new).seen) × (r.place < 1048576)) }
        ensures err { OnErr result (Carries (StandsFrom M.stands M.origin (view pass.new).origin) pass.new.me (entries_of (view pass.new).seen)) }
        ensures refused { IfErr result (Refuses op (length (view pass.new).seen)) }
    {
        match pass.slot_mut(&self.table.shared, 0) {
            Some(held) => held.apply(op, help),
            None => unreachable!(),
        }
    }

    // What the machine in the slot hands out.
    fn part_in_slot(&self, pass: &mut Pass<M>) -> Result<Option<M::Part>, NoMemory>
        requires pass { pass.old.table_id ≡ self.now.table.shared.table_id }
        requires held { Carries (StandsFrom M.stands M.origin (view pass.old).origin) pass.old.me (entries_of (view pass.old).seen) }
        ensures pass { (pass.new.table_id ≡ pass.old.table_id) × (pass.new.id ≡ pass.old.id) × (pass.new.me.0 ≡ pass.old.me.0) }
        ensures held { Carries (StandsFrom M.stands M.origin (view pass.new).origin) pass.new.me (entries_of (view pass.new).seen) }
        ensures fits { IfOk result (λ part. M.part_fits part (entries_of (view pass.new).seen)) }
    {
        match pass.slot_mut(&self.table.shared, 0) {
            Some(held) => held.machine.part(),
            None => unreachable!(),
        }
    }

    // Wakes those who wait, if a ticket beyond this one was drawn.
    fn wake_after(&self, served: u64) {
        if self.table.shared.peek(DRAWN) != served.wrapping_add(1) {
            self.table.shared.wake_all(SERVED);
        }
    }

    // Gives the slot back, and serves the next ticket.
    fn finish(&self, pass: &mut Pass<M>)
        requires pass { (pass.old.table_id ≡ self.now.table.shared.table_id) × (pass.old.me.0.stage ≡ Served) }
        requires held { Carries (StandsFrom M.stands M.origin (view pass.old).origin) pass.old.me (entries_of (view pass.old).seen) }
        ensures pass { (pass.new.table_id ≡ pass.old.table_id) × (pass.new.id ≡ pass.old.id) }
        ensures idle { pass.new.me ≡ (record (view pass.old) { stage = Idle }, []) }
    {
        let served = self.table.shared.fetch_add::<Advance>(pass, SERVED, 1);
        self.wake_after(served);
    }

    // Shows the entry.
    fn post(&self, pass: &mut Pass<M>, board: u64)
        requires pass { (pass.old.table_id ≡ self.now.table.shared.table_id) × (pass.old.me.0.stage ≡ Served) }
        requires short { length (view pass.old).seen < 1048576 }
        requires entry { (e : Entry M.Op M.Outcome) × (let after = entries_of (view pass.old).seen ++ e ∷ [] in Carries (StandsFrom M.stands M.origin (view pass.old).origin) pass.old.me after × (board ≡ length after * 2 ^ 43 + M.status_after after) × (M.status_after after < 2 ^ 43)) }
        ensures pass { (pass.new.table_id ≡ pass.old.table_id) × (pass.new.id ≡ pass.old.id) }
        ensures posted { (e : Entry M.Op M.Outcome) → Carries (StandsFrom M.stands M.origin (view pass.old).origin) pass.old.me (entries_of (view pass.old).seen ++ e ∷ []) → pass.new.me ≡ (grown (view pass.old) e, pass.old.me.1) }
        ensures known { TellsPasses (view pass.new).seen (passes_known (view pass.new)) }
    {
        self.table.shared.store::<Post>(pass, BOARD, board);
    }

    // Waits for a turn of its own, and enters the operation, which is applied with what help there is.
    fn enter<W: Wait>(
        &self,
        rt: &W,
        pass: &mut Pass<M>,
        op: M::Op,
        help: Option<M::Help>,
    ) -> Result<Given<M::Outcome>, CallFault<M::Op>>
        requires pass { IsPassOf self.now pass.old }
        requires allowed { M.allows op }
        ensures pass { IsPassOf self.now pass.new }
        ensures kept { view pass.new ≡ record (view pass.old) { seen = (view pass.new).seen; mine = (view pass.new).mine } }
        ensures entered { IfOk result (λ g. Enters M.legal M.status_after (view pass.old) g.place op g.outcome (view pass.new)) }
        ensures seen { OnErr result (Sees M.legal M.status_after (view pass.old) (view pass.new)) }
        ensures refused { IfErr result (Refuses op (length (view pass.new).seen)) }
    {
        self.begin(rt, pass);
        match self.apply(pass, op, help) {
            Ok(
                Entered {
                    place,
                    outcome,
                    board,
                },
            ) => {
                self.post(pass, board);
                self.finish(pass);
                Ok(Given { place, outcome })
            }
            Err(fault) => {
                self.finish(pass);
                Err(fault)
            }
        }
    }

    /// Waits for a turn of its own, applies the operation to the machine, and enters it with its outcome at the end of the
    /// history, under the pass's number. The promise holds if the call returns. Where it is refused nothing is entered, and
    /// the operation comes back.
    pub fn call<W: Wait>(
        &self,
        rt: &W,
        pass: &mut Pass<M>,
        op: M::Op,
    ) -> Result<Given<M::Outcome>, CallFault<M::Op>>
        requires pass { IsPassOf self.now pass.old }
        requires allowed { M.allows op }
        ensures pass { IsPassOf self.now pass.new }
        ensures kept { view pass.new ≡ record (view pass.old) { seen = (view pass.new).seen; mine = (view pass.new).mine } }
        ensures entered { IfOk result (λ g. Enters M.legal M.status_after (view pass.old) g.place op g.outcome (view pass.new)) }
        ensures seen { OnErr result (Sees M.legal M.status_after (view pass.old) (view pass.new)) }
        ensures refused { IfErr result (Refuses op (length (view pass.new).seen)) }
    {
        self.enter(rt, pass, op, None)
    }

    /// Calls as `call` does, with the help of what came of a part. The help is let go, whether it served or not.
    pub fn call_with<W: Wait>(
        &self,
        rt: &W,
        pass: &mut Pass<M>,
        op: M::Op,
        help: M::Help,
    ) -> Result<Given<M::Outcome>, CallFault<M::Op>>
        requires pass { IsPassOf self.now pass.old }
        requires allowed { M.allows op }
        ensures pass { IsPassOf self.now pass.new }
        ensures kept { view pass.new ≡ record (view pass.old) { seen = (view pass.new).seen; mine = (view pass.new).mine } }
        ensures entered { IfOk result (λ g. Enters M.legal M.status_after (view pass.old) g.place op g.outcome (view pass.new)) }
        ensures seen { OnErr result (Sees M.legal M.status_after (view pass.old) (view pass.new)) }
        ensures refused { IfErr result (Refuses op (length (view pass.new).seen)) }
    {
        self.enter(rt, pass, op, Some(help))
    }

    /// Waits for a turn of its own, and gives what the machine hands out after the history, which the pass has then seen.
    /// Nothing is entered. Others call while it is worked on. The promise holds if the call returns.
    pub fn part<W: Wait>(&self, rt: &W, pass: &mut Pass<M>) -> Result<Option<M::Part>, NoMemory>
        requires { IsPassOf self.now pass.old }
        ensures pass { IsPassOf self.now pass.new }
        ensures seen { Sees M.legal M.status_after (view pass.old) (view pass.new) }
        ensures fits { IfOk result (λ part. M.part_fits part (entries_of (view pass.new).seen)) }
    {
        self.begin(rt, pass);
        let part = self.part_in_slot(pass);
        self.finish(pass);
        part
    }

    /// A turn of this machine, which stands for the empty history, and its first pass. The machine is dropped where memory
    /// is wanting.
    pub fn new(alloc: Global, machine: M) -> Result<(Turn<M>, Pass<M>), NoMemory>
        requires { M.stands machine [] }
        ensures pass { IfOk result (λ made. IsPassOf made.0 made.1 × (view made.1 ≡ first_view (M.origin machine))) }
        ensures machine { IfOk result (λ made. made_with made.0 ≡ machine) }
    {
        let made = Snapshot::of(&machine);
        let held = Held {
            machine,
            history: Vec::new(alloc),
        };
        let board = held.board();
        let Ok(slots) = one_slot(alloc, held) else {
            return Err(NoMemory);
        };
        let Ok((table, pass)) = Table::new(alloc, &[0, 0, board], slots, &made) else {
            return Err(NoMemory);
        };
        Ok((Turn { table }, pass))
    }

    /// Shows how long the history is now, and the status after it. It never waits and takes no memory. The pass notes it.
    pub fn glance(&self, pass: &mut Pass<M>) -> Glance
        requires { IsPassOf self.now pass.old }
        ensures pass { IsPassOf self.now pass.new }
        ensures note { view pass.new ≡ record (view pass.old) { notes = (view pass.old).notes ++ (result.length, result.status) ∷ [] } }
        ensures seen { length (view pass.old).seen ≤ result.length }
        ensures notes { NotesWithin result.length (view pass.old).notes }
        ensures below { (result.length ≤ 1048576) × (result.status < 2 ^ 43) }
    {
        let board = self.table.shared.load::<Glancing<M>>(pass, BOARD);
        Glance {
            length: (board / (1 << 43)) as u32,
            status: board % (1 << 43),
        }
    }

    /// Seats another pass, which has seen what its maker has.
    pub fn seat(&self, pass: &mut Pass<M>) -> Pass<M>
        requires { IsPassOf self.now pass.old }
        ensures pass { IsPassOf self.now pass.new × IsPassOf self.now result }
        ensures maker { view pass.new ≡ with_new_seat (view pass.old) }
        ensures made { view result ≡ new_seat (view pass.old) }
    {
        self.table.shared.split_seat::<Seating>(pass)
    }

    // Takes another pass in. What that one has seen is told to this one.
    fn take_in(&self, pass: &mut Pass<M>, other: Pass<M>)
        requires pass { IsPassOf self.now pass.old }
        requires other { IsPassOf self.now other }
        ensures pass { IsPassOf self.now pass.new }
        ensures joined { view pass.new ≡ joined (view pass.old) (view other) }
    {
        self.table.shared.join_seat::<Seating>(pass, other);
    }

    // Compares what the pass has seen with what it was told.
    fn settle(&self, pass: &mut Pass<M>)
        requires { IsPassOf self.now pass.old }
        ensures pass { IsPassOf self.now pass.new }
        ensures settled { Settled (view pass.old) (view pass.new) }
    {
        self.table.shared.load::<Settle>(pass, DRAWN);
    }

    /// Takes another pass in. What the longer of the two has seen is kept, which begins with what each has; so are the notes
    /// of both, and the passes that the other knew, itself among them.
    pub fn join(&self, pass: &mut Pass<M>, other: Pass<M>)
        requires pass { IsPassOf self.now pass.old }
        requires other { IsPassOf self.now other }
        ensures pass { IsPassOf self.now pass.new }
        ensures joined { Settled (joined (view pass.old) (view other)) (view pass.new) }
    {
        self.take_in(pass, other);
        self.settle(pass);
    }

    /// Waits for a last turn, and gives the machine and the whole history. The promise holds if the call returns.
    pub fn close<W: Wait>(self, rt: &W, mut pass: Pass<M>) -> (M, History<M::Op, M::Outcome>)
        requires { IsPassOf self pass }
        ensures stands { M.stands result.0 result.1 }
        ensures origin { M.origin result.0 ≡ (view pass).origin }
        ensures legal { M.legal result.1 }
        ensures whole { Closes M.status_after (view pass) result.1 }
    {
        self.begin(rt, &mut pass);
        let Held { machine, history } = self.take_machine(&mut pass);
        (machine, History::of(history))
    }
}

fn one_slot<X: Drop, O: Drop, R: Drop>(
    alloc: Global,
    held: Held<X, O, R>,
) -> Result<Vec<Option<Held<X, O, R>>>, AllocError>
    ensures { IfOk result (λ v. v.items ≡ Some held ∷ []) }
{
    let mut slots = Vec::new(alloc);
    slots.push(Some(held))?;
    Ok(slots)
}
