//! The open sessions and the events that they hear.
#![tactic(auto)]

mod book;
mod hearers;
pub mod sessions;

pub use book::Book;
pub use hearers::Hearers;
pub use sessions::SessionRow;

#[cfg(test)]
mod tests;
