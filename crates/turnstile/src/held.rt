//! The machine with its history, as it lies in the turn's slot.
ghost use Rattle.std.specs.Prelude.{◌≡◌, ◌<◌, ◌≤◌, ◌+◌, ◌*◌, ◌^◌, ◌++◌, ◌∷◌, [], length, IfOk, IfErr, OnErr};
ghost use Rattle.turnstile.specs.Entries.{entry, Refuses};
ghost use Rattle.turnstile.specs.Machines.{Appends, HasRoom};

use crate::machine::{CallFault, Entry, Machine};
use pad_words::NoMemory;

/// How many entries a history may have.
pub const MOST_ENTRIES: usize = 1048576;

/// A machine and the history that it stands for.
#[derive(Drop)]
pub struct Held<X, O, R> {
    pub machine: X,
    pub history: Vec<Entry<O, R>>,
}

/// What an entry gives: its place, its outcome, and what the board is to show with it.
pub struct Entered<R> {
    pub place: u32,
    pub outcome: R,
    pub board: u64,
}

impl<M: Machine> Held<M, M::Op, M::Outcome> {
    /// Applies an operation, with what help there is, and puts the entry behind the history. Room is made before the
    /// machine is changed.
    pub fn apply(
        &mut self,
        op: M::Op,
        help: Option<M::Help>,
    ) -> Result<Entered<M::Outcome>, CallFault<M::Op>>
        requires stands { M.stands self.old.machine self.old.history.items }
        requires allowed { M.allows op }
        requires short { length self.old.history.items ≤ 1048576 }
        ensures stands { M.stands self.new.machine self.new.history.items }
        ensures origin { M.origin self.new.machine ≡ M.origin self.old.machine }
        ensures ok { IfOk result (λ r. (r.place ≡ length self.old.history.items) × (r.place < 1048576) × (self.new.history.items ≡ self.old.history.items ++ entry op r.outcome ∷ [])) }
        ensures board { IfOk result (λ r. (r.board ≡ length self.new.history.items * 2 ^ 43 + M.status_after self.new.history.items) × (M.status_after self.new.history.items < 2 ^ 43)) }
        ensures refused { IfErr result (Refuses op (length self.old.history.items)) }
        ensures err { OnErr result (self.new.history.items ≡ self.old.history.items) }
    {
        let place = self.history.len();
        if place >= MOST_ENTRIES {
            return Err(CallFault::HistoryFull(place as u32, op));
        }
        if self.history.reserve(1).is_err() {
            return Err(CallFault::NoMemory(op));
        }
        let Ok((kept, given)) = apply_to(&mut self.machine, &op, help) else {
            return Err(CallFault::NoMemory(op));
        };
        self.history.push_reserved(Entry { op, outcome: kept });
        let board = self.board();
        Ok(Entered {
            place: place as u32,
            outcome: given,
            board,
        })
    }

    /// What the board is to show: the length of the history in the upper bits, and the status in the lower 43.
    pub fn board(&self) -> u64
        requires stands { M.stands self.now.machine self.now.history.items }
        requires short { length self.now.history.items ≤ 1048576 }
        ensures value { result ≡ length self.now.history.items * 2 ^ 43 + M.status_after self.now.history.items }
        ensures below { M.status_after self.now.history.items < 2 ^ 43 }
    {
        self.history.len() as u64 * (1 << 43) + self.machine.status()
    }
}

// Applies an operation to a machine, with what help there is.
fn apply_to<M: Machine>(
    machine: &mut M,
    op: &M::Op,
    help: Option<M::Help>,
) -> Result<(M::Outcome, M::Outcome), NoMemory>
    requires room { HasRoom M.stands machine.old }
    requires allowed { M.allows op.now }
    ensures twice { IfOk result (λ given. given.0 ≡ given.1) }
    ensures entered { IfOk result (λ given. Appends M.stands machine.old machine.new op.now given.0) }
    ensures origin { M.origin machine.new ≡ M.origin machine.old }
    ensures unchanged { OnErr result (machine.new ≡ machine.old) }
{
    match help {
        Some(help) => machine.apply_with(op, &help),
        None => machine.apply(op),
    }
}
