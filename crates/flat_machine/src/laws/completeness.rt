//! A command that meets none of its refusals comes into work, and is answered OK.

ghost use Rattle.std.specs.Prelude.{◌≡◌, ℕ, Bool, IsTrue, List, None, Some, [], false, length};
ghost use Rattle.entry_core.specs.Entries.{Entry, entry_of, entry_refusal};
ghost use Rattle.key_table.specs.KeyRows.{KeyRows, slot_of};
ghost use Rattle.pad_steps.specs.declared.answers.Answer.TheVariants as answers;
ghost use Rattle.pad_steps.specs.declared.answers.Event.TheVariants as events;
ghost use Rattle.pad_steps.specs.declared.commands.Command.{Command};
ghost use Rattle.pad_steps.specs.declared.commands.Command.TheVariants as commands;
ghost use Rattle.pad_steps.specs.declared.steps.DiskWord.{DiskWord};
ghost use Rattle.pad_steps.specs.declared.steps.DiskWord.TheVariants as words;
ghost use Rattle.pad_steps.specs.declared.steps.Step.TheVariants as steps;
ghost use Rattle.request_queue.specs.Requests.{request_in_work};
ghost use Rattle.request_queue.specs.declared.requests.Request.{Request};
ghost use Rattle.flat_machine.specs.Arms.{is_struck};
ghost use Rattle.flat_machine.specs.Commands.{work_of};
ghost use Rattle.flat_machine.specs.CompletionFacts.{Answers, AnswersCrypt, AnswersImport, AnswersPin, IsAnsweredOk, IsInWork, IsInWorkFor, IsNext, goes_well};
ghost use Rattle.flat_machine.specs.EntrySteps.{first_of};
ghost use Rattle.flat_machine.specs.EveryRun.{AtEveryFinish};
ghost use Rattle.flat_machine.specs.Machine.{fits, next};
ghost use Rattle.flat_machine.specs.RefusalFacts.{refusal_in};
ghost use Rattle.flat_machine.specs.Sessions.{execute_event};
ghost use Rattle.flat_machine.specs.Settings.{Setting};
ghost use Rattle.flat_machine.specs.State.{Flat, device_refusal};

/// While the device is on and nothing is in work, Begin brings the eligible request into work, unless it is an entry that is refused.
pub fn begin_is_complete()
    ensures command { (set : Setting) (state : Flat) (word : DiskWord) (request : Request Command) →
        IsNext state.shared request → entry_of request.command ≡ None →
        IsInWork request [] (next set state steps.Begin word) }
    ensures entry { (set : Setting) (state : Flat) (word : DiskWord) (request : Request Command) (entry : Entry) →
        IsNext state.shared request → entry_of request.command ≡ Some entry →
        first_of (device_refusal state.shared.device) (entry_refusal entry) ≡ None →
        IsInWork request (execute_event state.shared.sessions request.session events.EnterData) (next set state steps.Begin word) }
{}

/// A command in work that is not refused is answered OK, if its device calls go well; and these are the answers.
pub fn finish_is_complete()
    ensures any { (set : Setting) (state : Flat) (word : DiskWord) (request : Request Command) →
        request_in_work state.shared.requests ≡ Some request → entry_of request.command ≡ None →
        refusal_in (work_of set state.shared (length state.held) request.command) ≡ None →
        IsTrue (fits set state.shared steps.Finish word) → IsTrue (goes_well word) →
        IsAnsweredOk request (next set state steps.Finish word) }
    ensures pin { AtEveryFinish AnswersPin }
    ensures crypt { AtEveryFinish AnswersCrypt }
    ensures imported { AtEveryFinish AnswersImport }
    ensures deletion { (set : Setting) (state : Flat) (word : DiskWord) (request : Request Command) (name : List ℕ) (slot : ℕ) →
        IsInWorkFor state.shared request (commands.DeleteKey name) → device_refusal state.shared.device ≡ None →
        slot_of name state.shared.keys ≡ Some slot → is_struck word ≡ false →
        Answers request answers.Done (next set state steps.Finish word) }
    ensures initialization { (set : Setting) (state : Flat) (word : DiskWord) (request : Request Command) →
        IsInWorkFor state.shared request commands.Init → device_refusal state.shared.device ≡ None →
        is_struck word ≡ false → Answers request answers.Done (next set state steps.Finish word) }
    ensures maintain { (set : Setting) (state : Flat) (word : DiskWord) (request : Request Command) (on : Bool) →
        IsInWorkFor state.shared request (commands.MaintainPin on) → device_refusal state.shared.device ≡ None →
        Answers request answers.Done (next set state steps.Finish word) }
    ensures reset { (set : Setting) (state : Flat) (rows : KeyRows) (request : Request Command) →
        IsInWorkFor state.shared request commands.Reset →
        Answers request answers.Done (next set state steps.Finish (words.Loaded rows)) }
{}
