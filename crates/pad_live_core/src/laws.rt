//! What is so of every history of a desk. Each law is a function with nothing to do: that its contract is proved is the law.
ghost use Rattle.std.specs.Prelude.{◌++◌, ◌≤◌};
ghost use Rattle.pad_live_core.specs.LaneEvents.{DeskLog, ended_in};
ghost use Rattle.pin_blocks.specs.PinRules.{PinRules};

use flat_machine::laws::requests::replies_stay;
use pad_desk::laws::status_tells_the_requests_ended;

/// Of a longer history at least as many requests ended.
pub fn ended_requests_stay()
    ensures { (pin_rules : PinRules) (front rest : DeskLog) → ended_in pin_rules front ≤ ended_in pin_rules (front ++ rest) }
{
    replies_stay();
    status_tells_the_requests_ended();
}
