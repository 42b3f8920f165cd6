//! What is so of the status of a desk and of what it tells. Each law is a function with nothing to do: that its contract is proved is the law.
ghost use Rattle.std.specs.Prelude.{◌≡◌, ◌↔◌, ◌∷◌, [], ℕ};
ghost use Rattle.flat_machine.specs.Machine.{next, next_work, status};
ghost use Rattle.flat_machine.specs.Settings.{Setting};
ghost use Rattle.flat_machine.specs.State.{Flat};
ghost use Rattle.pad_desk.specs.Answers.{due_at};
ghost use Rattle.pad_desk.specs.Pending.{IsPendingFor};
ghost use Rattle.pad_desk.specs.Statuses.{ended_at};
ghost use Rattle.pad_steps.specs.declared.answers.Out.TheVariants as out;
ghost use Rattle.pad_steps.specs.declared.answers.Told.TheVariants as telling;
ghost use Rattle.pad_steps.specs.declared.steps.DiskWord.{DiskWord};
ghost use Rattle.pad_steps.specs.declared.steps.Question.TheVariants as asked;
ghost use Rattle.pad_steps.specs.declared.steps.Step.TheVariants as steps;
ghost use Rattle.pad_words.specs.declared.numbers.Session.{Session};
ghost use Rattle.request_queue.specs.Requests.{gone_count};

/// The step that is due at the status of a state is the step that is due in it.
pub fn status_tells_the_step_due()
    ensures { (state : Flat) → due_at (status state) ≡ next_work state.shared }
{}

/// How many requests ended, by the status of a state, is how many ended in it.
pub fn status_tells_the_requests_ended()
    ensures { (state : Flat) → ended_at (status state) ≡ gone_count state.shared.requests }
{}

/// An ask for a reply is told pending exactly where the request is pending for the session.
pub fn pending_is_told_while_it_is_so()
    ensures { (set : Setting) (state : Flat) (session : Session) (id : ℕ) (word : DiskWord) →
        ((next set state (steps.Ask session (asked.Reply id)) word).outs ≡ out.Told session telling.Pending ∷ [])
        ↔ IsPendingFor state.shared session id }
{}
