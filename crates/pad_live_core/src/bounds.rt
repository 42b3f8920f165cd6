//! How long the histories of live runs are. Each law is a function that does no more than name the laws it stands on: that its
//! contract is proved is the law.
ghost use Rattle.std.specs.Prelude.{◌≤◌, List, Option, length};
ghost use Rattle.pad_desk.specs.Histories.{DeskEntry};
ghost use Rattle.pad_live_core.specs.Bounds.{most_entries};
ghost use Rattle.pad_live_core.specs.LiveHistories.{LiveHistory};
ghost use Rattle.pad_live_core.specs.declared.stop.Stop.{Stop};
ghost use Rattle.pin_blocks.specs.PinRules.{PinRules};
ghost use Rattle.script_lang.specs.declared.lane_kinds.LaneStep.{LaneStep};

use flat_machine::laws::requests::due_work_runs_out;
use pad_desk::laws::{status_tells_the_requests_ended, status_tells_the_step_due};

/// The history of a live run has no more entries than its lines allow.
pub fn live_histories_are_bounded()
    ensures { (pin_rules : PinRules) (lines : List (List LaneStep)) (stop : Option Stop) (history : List DeskEntry) →
        LiveHistory pin_rules lines stop history → length history ≤ most_entries lines }
{
    due_work_runs_out();
    status_tells_the_step_due();
    status_tells_the_requests_ended();
}
