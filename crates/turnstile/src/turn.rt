//! The turn, which many threads share.
ghost use Rattle.std.specs.Prelude.{◌≡◌};

use crate::machine::Machine;
use crate::rule::Board;

/// One turn of one machine. Its table has three words (how many tickets were drawn, how many turns were served, and the
/// board: the length of the history and the status after it), and one slot with the machine and its history.
#[derive(Drop)]
pub struct Turn<M: Machine> {
    pub(crate) table: Board<M>,
    ghost sized: { (table.shared.table_id.words ≡ 3) × (table.shared.table_id.slots ≡ 1) },
}
