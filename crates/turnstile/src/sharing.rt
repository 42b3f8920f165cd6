//! What may be shared by threads, and what may move between them.
use crate::machine::Machine;
use crate::rule::Pass;
use crate::turn::Turn;

fn needs_sync<T: Sync>(_shared: &T) {}

fn needs_send<T: Send>(value: T) -> T {
    value
}

/// A turn may be shared by threads where its machine, the operations and the outcomes may move between them. That this
/// function is accepted shows it.
pub fn shared_by_threads<M: Machine + Send>(turn: &Turn<M>)
where
    M::Op: Send,
    M::Outcome: Send,
{
    needs_sync(turn)
}

/// And then a turn and its passes may move between threads.
pub fn moves_between_threads<M: Machine + Send>(turn: Turn<M>, pass: Pass<M>) -> (Turn<M>, Pass<M>)
where
    M::Op: Send,
    M::Outcome: Send,
{
    (needs_send(turn), needs_send(pass))
}
