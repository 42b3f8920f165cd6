//! What callers of a desk are answered.
ghost use Rattle.std.specs.Prelude.{◌≡◌, ◌∷◌, [], IfNone, IfSome, IsTrue};
ghost use Rattle.pad_desk.specs.Answers.{collect_out, due_at, submit_out};
ghost use Rattle.pad_desk.specs.Replies.{TellsReplyOf};
ghost use Rattle.pad_desk.specs.declared.answers.Collected.{Collected};
ghost use Rattle.pad_desk.specs.declared.answers.Submitted.{Submitted};
ghost use Rattle.pad_steps.specs.Formed.{is_well_formed};

use crate::outcome::StepOut;
use crate::told_reply::ToldReply;
use pad_steps::{Out, Refusal, Step, Told};
use pad_words::Session;
use turnstile::{Given, Glance};

/// What became of a command.
#[derive(Drop)]
pub enum Submitted {
    /// It has this id.
    Request(u32),
    Refused(Refusal),
}

/// What became of a request.
#[derive(Drop)]
pub enum Collected {
    /// It waits or is in work.
    Pending,
    /// It ended with this reply.
    Ended(ToldReply),
    Refused(Refusal),
}

/// What a worker did.
#[derive(Drop)]
pub enum Worked {
    /// It took the step that was due.
    Did(Given<StepOut>),
    /// No step was due when it glanced.
    Nothing(Glance),
}

// What a submit was told.
pub(crate) fn submitted_in(_session: Session, outs: &[Out]) -> Submitted
    requires { (submitted : Submitted) × (outs.now ≡ submit_out _session submitted ∷ []) }
    ensures { outs.now ≡ submit_out _session result ∷ [] }
{
    match outs.first() {
        Some(Out::Request(_, id)) => Submitted::Request(*id),
        Some(Out::Refused(_, refusal)) => Submitted::Refused(refusal.copy()),
        _ => unreachable!(),
    }
}

// What an ask for a reply was told.
pub(crate) fn collected_in(_session: Session, _id: u32, outcome: StepOut) -> Collected
    requires { (collected : Collected) × (outcome.outs.items ≡ collect_out _session _id collected ∷ []) }
    ensures { outcome.outs.items ≡ collect_out _session _id result ∷ [] }
{
    let outs = outcome.outs;
    match told_no_reply(_session, _id, outs.items()) {
        Some(collected) => collected,
        None => Collected::Ended(ToldReply::of(outs)),
    }
}

// What an ask for a reply was told, where it was no reply.
fn told_no_reply(_session: Session, _id: u32, outs: &[Out]) -> Option<Collected>
    requires { (collected : Collected) × (outs.now ≡ collect_out _session _id collected ∷ []) }
    ensures told { IfSome result (λ collected. outs.now ≡ collect_out _session _id collected ∷ []) }
    ensures reply { IfNone result (TellsReplyOf _session _id outs.now) }
{
    match outs.first() {
        Some(Out::Told(_, Told::Pending)) => Some(Collected::Pending),
        Some(Out::Told(_, Told::No(refusal))) => Some(Collected::Refused(refusal.copy())),
        Some(Out::Told(_, Told::Reply(..))) => None,
        _ => unreachable!(),
    }
}

/// The step that is due at a status: Begin or Finish, if either is.
pub fn step_due(status: u64) -> Option<Step>
    ensures due { result ≡ due_at status }
    ensures formed { IfSome result (λ step. IsTrue (is_well_formed step)) }
{
    match status / 16 % 4 {
        1 => Some(Step::Begin),
        2 => Some(Step::Finish),
        _ => None,
    }
}
