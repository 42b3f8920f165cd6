//! What the code keeps of a state is enough.

ghost use Rattle.std.specs.Prelude.{◌≡◌, [], Bool, IsTrue, List, None, Some, ℕ};
ghost use Rattle.pad_steps.specs.declared.steps.Step.{Step};
ghost use Rattle.pad_steps.specs.declared.steps.DiskWord.{DiskWord};
ghost use Rattle.pad_steps.specs.declared.commands.Command.{Command};
ghost use Rattle.request_queue.specs.declared.requests.Request.{Request};
ghost use Rattle.request_queue.specs.Requests.{pending_by_id};
ghost use Rattle.flat_machine.specs.Sound.{Sound, SubmitsOk};
ghost use Rattle.flat_machine.specs.Settings.{Setting};
ghost use Rattle.flat_machine.specs.State.{Flat, Shared, running_entry};
ghost use Rattle.flat_machine.specs.Machine.{next};
ghost use Rattle.flat_machine.specs.Kept.{FitRunning, Kept, kept_of, kept_next};
ghost use Rattle.flat_machine.specs.EveryRun.{InEveryRun};

use entry_core::laws::digits_fit;

/// What is kept of a step is the step on what is kept.
pub fn kept_steps()
    ensures state { (set : Setting) (seed : List ℕ) (state : Flat) (step : Step) (word : DiskWord) →
        kept_of seed (next set state step word).state ≡ (kept_next set (kept_of seed state) step word).state }
    ensures outs { (set : Setting) (seed : List ℕ) (state : Flat) (step : Step) (word : DiskWord) →
        (next set state step word).outs ≡ (kept_next set (kept_of seed state) step word).outs }
{}

/// There are no presses where no entry runs: they do not outlive their request.
pub fn presses_of_entry()
    ensures { InEveryRun (λ set state. running_entry state.shared ≡ None → state.presses ≡ []) }
{}

/// The digits of the running entry fit it after every step, if they did before: they are no more than it takes, and each
/// is a digit of its kind.
pub fn digits_fit_their_entry()
    ensures { (set : Setting) (kept : Kept) (step : Step) (word : DiskWord) →
        FitRunning kept → FitRunning (kept_next set kept step word).state }
{
    digits_fit();
}

/// Pending commands pass a test after every step, if they did before and each command that Submit takes passes it; and none
/// is pending while the device is off.
pub fn pending_stay_sound()
    ensures { (passes : Command → Bool) (set : Setting) (kept : Kept) (step : Step) (word : DiskWord) →
        SubmitsOk passes set.pin_rules step → Sound passes kept.shared → Sound passes (kept_next set kept step word).state.shared }
{}

/// Each pending request has a command that passes a test that all pending commands pass.
pub fn pending_commands_pass()
    ensures { (passes : Command → Bool) (shared : Shared) (id : ℕ) (request : Request Command) →
        Sound passes shared → pending_by_id id shared.requests ≡ Some request → IsTrue (passes request.command) }
{}
