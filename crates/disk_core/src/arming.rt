//! The counting of calls up to the one that is to be struck.
ghost use Rattle.std.specs.Prelude.{◌≡◌, ◌≤◌, option_map};
ghost use Rattle.std.specs.Option.{ForSome};
ghost use Rattle.disk_core.specs.Disks.{armed_after, struck_within, strike_fault, strike_of};

use crate::disk::Strike;

/// Counts a call of a disk on which this is armed, and says how the call is struck.
pub fn count_call(armed: &mut Option<(u32, Strike)>) -> Option<Strike>
    requires { ForSome armed.old (λ a. 1 ≤ a.0) }
    ensures armed { armed.new ≡ armed_after 1 armed.old }
    ensures later { ForSome armed.new (λ a. 1 ≤ a.0) }
    ensures strike { result ≡ strike_of armed.old }
    ensures struck { option_map strike_fault result ≡ struck_within 1 armed.old }
{
    let (call, strike) = (*armed)?;
    if call == 1 {
        *armed = None;
        Some(strike)
    } else {
        *armed = Some((call - 1, strike));
        None
    }
}
