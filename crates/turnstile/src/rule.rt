//! The rule of the turn's table, and what each step on a word tells the pass that takes it.
use crate::held::Held;
use crate::machine::Machine;
use crate::view::PassView;
use atomic_table::{Join, Play, Seat, Split, Table, TableRule};
use std::alloc::Global;
use std::marker::PhantomData;
use std::snapshot::Snapshot;

/// What lies in the slot: the machine with its history, or nothing after the end.
pub type Slot<M> = Option<Held<M, <M as Machine>::Op, <M as Machine>::Outcome>>;

/// What contracts see of a pass.
pub type ViewOf<M> = PassView<<M as Machine>::Op, <M as Machine>::Outcome>;

/// The table keeps the rule of turns.
pub struct InTurn<M> {
    machine: PhantomData<M>,
}

impl<M: Machine> TableRule<Slot<M>, ViewOf<M>, Snapshot<M>> for InTurn<M> {
    ghost use Rattle.turnstile.specs.Rules.{StandsFrom, TurnRule, first_view};

    ghost holds = { λ made. let origin = M.origin made.value in TurnRule origin (StandsFrom M.stands M.origin origin) M.status_after M.legal };

    ghost first = { λ made. first_view (M.origin made.value) };
}

/// A ticket is drawn: the count of tickets is compared and exchanged.
pub struct Draw;

impl<M: Machine> Play<Slot<M>, ViewOf<M>> for Draw {
    ghost use Rattle.turnstile.specs.Rules.{drew};

    ghost then = { drew };
}

/// The served turn is looked at; where it is the ticket's, the slot is the pass's.
pub struct Look<M> {
    machine: PhantomData<M>,
}

impl<M: Machine> Play<Slot<M>, ViewOf<M>> for Look<M> {
    ghost use Rattle.turnstile.specs.Rules.{StandsFrom, looked};

    ghost then = { looked (StandsFrom M.stands M.origin) M.legal M.status_after };
}

/// The entry is shown on the board. From here on it stands in the history.
pub struct Post;

impl<M: Machine> Play<Slot<M>, ViewOf<M>> for Post {
    ghost use Rattle.turnstile.specs.Rules.{posted};

    ghost then = { posted };
}

/// The slot is given back, and the next ticket is served.
pub struct Advance;

impl<M: Machine> Play<Slot<M>, ViewOf<M>> for Advance {
    ghost use Rattle.turnstile.specs.Rules.{advanced};

    ghost then = { advanced };
}

/// The board is read, and the pass gets a note.
pub struct Glancing<M> {
    machine: PhantomData<M>,
}

impl<M: Machine> Play<Slot<M>, ViewOf<M>> for Glancing<M> {
    ghost use Rattle.turnstile.specs.Rules.{glanced};

    ghost then = { glanced M.status_after };
}

/// A caller's seat at a turn.
pub type Pass<M> = Seat<Slot<M>, ViewOf<M>>;

/// The table of a turn.
pub type Board<M> = Table<Slot<M>, ViewOf<M>, Snapshot<M>, InTurn<M>, Global>;

/// A pass seats another, or takes one in.
pub struct Seating;

impl<O, R> Split<PassView<O, R>> for Seating {
    ghost use Rattle.turnstile.specs.Rules.{with_new_seat, new_seat};

    ghost left = { with_new_seat };

    ghost right = { new_seat };
}

impl<O, R> Join<PassView<O, R>> for Seating {
    ghost use Rattle.turnstile.specs.Rules.{joined, spent_view};

    ghost both = { joined };

    ghost spent = { spent_view };
}

/// A pass compares what it has seen and what it was told.
pub struct Settle;

impl<M: Machine> Play<Slot<M>, ViewOf<M>> for Settle {
    ghost use Rattle.turnstile.specs.Rules.{settled};

    ghost then = { settled };
}
