//! A refusal changes nothing but the row of its request.

ghost use Rattle.std.specs.Prelude.{◌≡◌, ℕ, Some};
ghost use Rattle.pad_words.specs.declared.numbers.Session.{Session};
ghost use Rattle.pad_steps.specs.declared.answers.Refusal.{Refusal};
ghost use Rattle.pad_steps.specs.declared.commands.Command.{Command};
ghost use Rattle.pad_steps.specs.declared.steps.DiskWord.{DiskWord};
ghost use Rattle.request_queue.specs.Requests.{finished};
ghost use Rattle.flat_machine.specs.RequestSteps.{submit_refusal};
ghost use Rattle.flat_machine.specs.State.{Flat, after_said, says};
ghost use Rattle.flat_machine.specs.Settings.{Setting};
ghost use Rattle.flat_machine.specs.Machine.{next};
ghost use Rattle.flat_machine.specs.RefusalFacts.{ChangesRequestsAlone, IsRefusedAtBegin, requests_refused_at_begin, IsRefusedAtFinish};
ghost use Rattle.flat_machine.specs.EveryRun.{after_step};
ghost use Rattle.pad_steps.specs.declared.answers.Out.TheVariants as out;
ghost use Rattle.pad_steps.specs.declared.answers.Reply.TheVariants as replied;
ghost use Rattle.pad_steps.specs.declared.steps.Step.TheVariants as steps;

/// A refused Submit changes nothing. An entry that is refused as it begins, and a command that is refused for a condition of its own as it is finished, end, and nothing else changes.
pub fn refusals_change_nothing()
    ensures submit { (set : Setting) (state : Flat) (session : Session) (limit : ℕ) (command : Command) (refusal : Refusal) (word : DiskWord) →
        submit_refusal set.pin_rules state.shared session command ≡ Some refusal →
        next set state (steps.Submit session limit command) word ≡ after_said state (says state.shared (out.Refused session refusal)) }
    ensures entry { (set : Setting) (state : Flat) (refusal : Refusal) (word : DiskWord) → IsRefusedAtBegin state.shared refusal →
        ChangesRequestsAlone state (after_step set state steps.Begin word) (requests_refused_at_begin refusal state.shared) }
    ensures finish { (set : Setting) (state : Flat) (refusal : Refusal) (word : DiskWord) → IsRefusedAtFinish set state refusal →
        ChangesRequestsAlone state (after_step set state steps.Finish word) (finished (replied.No refusal) state.shared.requests) }
{}
