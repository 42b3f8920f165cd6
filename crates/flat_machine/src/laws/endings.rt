//! Why a request ended, and what is told of a refused one.

ghost use Rattle.std.specs.Prelude.{◌≡◌, ◌∷◌, ◌⊎◌, ◌||◌, ℕ, IsTrue, List, Option, Some, [], false, length, not, true};
ghost use Rattle.std.specs.List.{list_all};
ghost use Rattle.entry_core.specs.Entries.{Entry, entry_of, entry_refusal};
ghost use Rattle.key_table.specs.KeyRows.{KeyRows};
ghost use Rattle.pad_steps.specs.declared.answers.Out.TheVariants as out;
ghost use Rattle.pad_steps.specs.declared.answers.Refusal.{Refusal};
ghost use Rattle.pad_steps.specs.declared.answers.Refusal.TheVariants as refusals;
ghost use Rattle.pad_steps.specs.declared.answers.Reply.TheVariants as replied;
ghost use Rattle.pad_steps.specs.declared.commands.Command.{Command};
ghost use Rattle.pad_steps.specs.declared.steps.DiskWord.{DiskWord};
ghost use Rattle.pad_steps.specs.declared.steps.DiskWord.TheVariants as words;
ghost use Rattle.pad_steps.specs.declared.steps.Step.{Step};
ghost use Rattle.pad_steps.specs.declared.steps.Step.TheVariants as steps;
ghost use Rattle.request_queue.specs.Requests.{is_due, pending_where, request_in_work};
ghost use Rattle.request_queue.specs.declared.requests.Request.{Request};
ghost use Rattle.flat_machine.specs.declared.types.Device.TheVariants.{Ready, Stopped};
ghost use Rattle.flat_machine.specs.declared.types.Work.TheVariants as work;
ghost use Rattle.flat_machine.specs.Commands.{work_of};
ghost use Rattle.flat_machine.specs.CompletionFacts.{IsNext};
ghost use Rattle.flat_machine.specs.EndingFacts.{Accuses, HasReachedLimit, IsAccused, IsRefusedAlone, IsStoppedSince, TellsRefusal, cancels_of, is_deletion, is_denial};
ghost use Rattle.flat_machine.specs.DiskFacts.{is_off_step};
ghost use Rattle.flat_machine.specs.DiskSteps.{is_cut, is_failed, is_loaded};
ghost use Rattle.flat_machine.specs.EntrySteps.{first_of};
ghost use Rattle.flat_machine.specs.Facts.{IsStart};
ghost use Rattle.flat_machine.specs.Histories.{FitsFrom};
ghost use Rattle.flat_machine.specs.Machine.{Act, fits, next, run_from};
ghost use Rattle.flat_machine.specs.RefusalFacts.{refusal_in};
ghost use Rattle.flat_machine.specs.RequestFacts.{Ending};
ghost use Rattle.flat_machine.specs.Settings.{Setting};
ghost use Rattle.flat_machine.specs.State.{Flat, accuses, device_refusal};

/// TIMEOUT comes at a Tick at which the request reached its limit, and no pending request is ever overdue.
pub fn timeouts_are_due()
    ensures ended { (set : Setting) (state : Flat) (step : Step) (word : DiskWord) (ending : Ending) →
        TellsRefusal (next set state step word).outs ending refusals.Timeout → HasReachedLimit state step ending }
    ensures tick { (set : Setting) (state : Flat) (ticks : ℕ) (word : DiskWord) →
        pending_where (is_due (next set state (steps.Tick ticks) word).state.shared.clock) (next set state (steps.Tick ticks) word).state.shared.requests ≡ [] }
    ensures run { (set : Setting) (start : Flat) (acts : List Act) →
        IsStart start →
        pending_where (is_due (run_from set start acts).shared.clock) (run_from set start acts).shared.requests ≡ [] }
{}

/// CANCELED comes by a Cancel or the Close of the request's own session, and CONNECTIONLOST by Off or a cut.
pub fn cancels_and_losses()
    ensures canceled { (set : Setting) (state : Flat) (step : Step) (word : DiskWord) (ending : Ending) →
        TellsRefusal (next set state step word).outs ending refusals.Canceled →
        IsTrue (cancels_of ending.session step) }
    ensures lost { (set : Setting) (state : Flat) (step : Step) (word : DiskWord) (ending : Ending) →
        TellsRefusal (next set state step word).outs ending refusals.ConnectionLost →
        IsTrue (is_off_step step || is_cut word) }
{}

/// HARDWAREERROR comes while the device is stopped, or by a call of this step that failed. The device is stopped by a failed call, since which it was stopped at every moment, and nothing was loaded where every word fits; a loading makes it ready.
pub fn hardware_errors_are_faults()
    ensures ended { (set : Setting) (state : Flat) (step : Step) (word : DiskWord) (ending : Ending) →
        TellsRefusal (next set state step word).outs ending refusals.HardwareError →
        (state.shared.device ≡ Stopped) ⊎ IsTrue (is_failed word) }
    ensures stopped { (set : Setting) (start : Flat) (acts : List Act) →
        IsStart start → (run_from set start acts).shared.device ≡ Stopped → IsStoppedSince set start acts }
    ensures unloaded { (set : Setting) (state : Flat) (acts : List Act) (since : IsStoppedSince set state acts) →
        FitsFrom set state acts → IsTrue (list_all (λ (act : Act). not (is_loaded act.word)) since.after) }
    ensures loaded { (set : Setting) (state : Flat) (step : Step) (rows : KeyRows) →
        IsTrue (fits set state.shared step (words.Loaded rows)) →
        (next set state step (words.Loaded rows)).state.shared.device ≡ Ready }
{}

/// A key is accused exactly where a Finish is refused by one of the three refusals of a key that its command needs.
pub fn accusations_are_denials()
    ensures only { (set : Setting) (state : Flat) (step : Step) (word : DiskWord) →
        Accuses set.pin_rules state step (next set state step word).outs }
    ensures each { (set : Setting) (state : Flat) (word : DiskWord) (request : Request Command) (why : Refusal) →
        request_in_work state.shared.requests ≡ Some request →
        refusal_in (work_of set state.shared (length state.held) request.command) ≡ Some why →
        is_denial why ≡ true → is_deletion request.command ≡ false →
        IsAccused set.pin_rules state steps.Finish (next set state steps.Finish word).outs }
{}

/// A refused command changes its own row alone, and what is said is its reply, and then that the key was accused, if one was.
pub fn refused_alone()
    ensures finish { (set : Setting) (state : Flat) (word : DiskWord) (request : Request Command) (why : Refusal) (accused : Option (List ℕ)) →
        request_in_work state.shared.requests ≡ Some request →
        work_of set state.shared (length state.held) request.command ≡ work.Refuse why accused →
        IsRefusedAlone state request why (accuses state.shared accused why) (next set state steps.Finish word) }
    ensures entry { (set : Setting) (state : Flat) (word : DiskWord) (request : Request Command) (entry : Entry) (why : Refusal) →
        IsNext state.shared request → entry_of request.command ≡ Some entry →
        first_of (device_refusal state.shared.device) (entry_refusal entry) ≡ Some why →
        (next set state steps.Begin word).outs ≡ out.Ended request.session request.id (replied.No why) ∷ [] }
{}
