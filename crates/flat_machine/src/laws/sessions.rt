//! What is so of the sessions and of the line for the lock in every run.

ghost use Rattle.std.specs.Prelude.{IsTrue};
ghost use Rattle.std.specs.List.{IsDistinct};
ghost use Rattle.std.specs.List.Sorted.{IsStrictlyIncreasing};
ghost use Rattle.pad_words.specs.Numbers.{same_session};
ghost use Rattle.flat_machine.specs.SessionFacts.{all_open};
ghost use Rattle.session_book.specs.Rising.{session_numbers};
ghost use Rattle.flat_machine.specs.EveryRun.{InEveryRun};

/// The open sessions rise by number, so none is open twice.
pub fn sessions_rise()
    ensures { InEveryRun (λ set state. IsStrictlyIncreasing (session_numbers state.shared.sessions)) }
{}

/// No session stands twice in the line, and every session in it is open: the first, which holds the lock, and those that wait.
pub fn lock_line()
    ensures apart { InEveryRun (λ set state. IsDistinct same_session state.shared.line) }
    ensures open_ones { InEveryRun (λ set state. IsTrue (all_open state.shared.sessions state.shared.line)) }
{}
