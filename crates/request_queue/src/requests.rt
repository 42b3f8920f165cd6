//! The rows of the queue.

use pad_words::Session;

/// A request as it was submitted: its id, its session, the clock then in ticks, its limit in ticks, and its command.
#[derive(Drop)]
pub struct Request<C> {
    pub id: u32,
    pub session: Session,
    pub submitted: u64,
    pub limit: u32,
    pub command: C,
}

/// A request, with what has become of it: it waits, is in work, or is gone with a reply.
#[derive(Drop)]
pub enum RequestRow<C, R> {
    Waiting(Request<C>),
    InWork(Request<C>),
    Gone(u32, Session, R),
}
