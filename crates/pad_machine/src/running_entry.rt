// The entry that runs.

use entry_core::Entry;
use flat_machine::types::Owner;

/// The entry that the request in work runs: whose it is, and its rules. It holds no digit.
#[derive(Drop)]
pub struct RunningEntry {
    pub owner: Owner,
    pub entry: Entry,
}
