//! Laws of the definitions, by theme. Each law is a function with nothing to do, called for its clauses.

pub mod arms;
pub mod clearing;
pub mod completeness;
pub mod devices;
pub mod disclosure;
pub mod disk_runs;
pub mod endings;
pub mod histories;
pub mod kept;
pub mod key_access;
pub mod keys;
pub mod lock_and_queue;
pub mod pins;
pub mod refusals;
pub mod requests;
pub mod runs;
pub mod sessions;
pub mod sound;
pub mod twins;
pub mod works;
