//! The counting of the calls of a reader or writer of the library that failed.
ghost use Rattle.std.specs.Prelude.{◌≡◌, Ok, IfOk, IsErr, OnErr};
ghost use Rattle.disk_core.specs.Causes.{next_count};

use crate::traits::Failed;
use std::io;

/// What the host answered. Its failure is a failure here, and is counted.
pub(crate) fn count_fault(faults: &mut u64, done: io::Result<usize>) -> Result<usize, Failed>
    ensures ok { IfOk done (λ n. (result ≡ Ok n) × (faults.new ≡ faults.old)) }
    ensures err { OnErr done (IsErr result × (faults.new ≡ next_count faults.old)) }
{
    match done {
        Ok(n) => Ok(n),
        Err(_) => {
            *faults = faults.saturating_add(1);
            Err(Failed)
        }
    }
}
