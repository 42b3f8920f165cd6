//! What may be shared by threads, and what may move between them.
use crate::desk::{Desk, DeskPass};
use disk_core::PowerDisk;
use pin_blocks::PinWork;

fn needs_sync<T: Sync>(_shared: &T) {}

fn needs_send<T: Send>(value: T) -> T {
    value
}

/// A desk may be shared by threads where its PIN work and its disk may move between them. That this function is accepted
/// shows it.
pub fn shared_by_threads<W: PinWork + Drop + Send, D: PowerDisk + Drop + Send>(desk: &Desk<W, D>) {
    needs_sync(desk)
}

/// And then a desk and its passes may move between threads.
pub fn moves_between_threads<W: PinWork + Drop + Send, D: PowerDisk + Drop + Send>(
    desk: Desk<W, D>,
    pass: DeskPass<W, D>,
) -> (Desk<W, D>, DeskPass<W, D>) {
    (needs_send(desk), needs_send(pass))
}
