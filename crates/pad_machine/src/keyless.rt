// Steps without the key of a press.
ghost use Rattle.std.specs.Prelude.{◌≡◌, IsTrue};
ghost use Rattle.key_source.specs.declared.Key.{Key};
ghost use Rattle.pad_machine.specs.Prepares.{IsFormed, pressed, with_key};
ghost use Rattle.pad_steps.specs.Formed.{is_well_formed};

use key_source::Key;
use pad_steps::{Classes, Command, Question, Step};
use pad_words::Session;

/// A step as what may want memory sees it: a press without its key.
#[derive(Drop)]
pub enum KeylessStep<'a> {
    Open(Session),
    Close(Session),
    Listen(Session, Classes),
    Lock(Session),
    Unlock(Session),
    Submit(Session, u32, &'a Command),
    Cancel(Session, u32),
    Begin,
    Finish,
    Press,
    Tick(u32),
    Ask(Session, &'a Question),
    Off,
    Boot,
}

/// The step without its key.
pub fn without_key(step: &Step) -> KeylessStep<'_>
    requires { IsTrue (is_well_formed step.now) }
    ensures step { (key : Key) × (step.now ≡ with_key result key) }
    ensures taken { IsFormed result }
{
    match step {
        Step::Open(session) => KeylessStep::Open(*session),
        Step::Close(session) => KeylessStep::Close(*session),
        Step::Listen(session, classes) => KeylessStep::Listen(*session, *classes),
        Step::Lock(session) => KeylessStep::Lock(*session),
        Step::Unlock(session) => KeylessStep::Unlock(*session),
        Step::Submit(session, limit, command) => KeylessStep::Submit(*session, *limit, command),
        Step::Cancel(session, id) => KeylessStep::Cancel(*session, *id),
        Step::Begin => KeylessStep::Begin,
        Step::Finish => KeylessStep::Finish,
        Step::Press(_) => KeylessStep::Press,
        Step::Tick(ticks) => KeylessStep::Tick(*ticks),
        Step::Ask(session, question) => KeylessStep::Ask(*session, question),
        Step::Off => KeylessStep::Off,
        Step::Boot => KeylessStep::Boot,
    }
}

/// The key that the step presses.
pub fn pressed_key(step: &Step) -> Option<Key>
    ensures { result ≡ pressed step.now }
{
    match step {
        Step::Press(key) => Some(*key),
        _ => None,
    }
}
