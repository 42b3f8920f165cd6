//! What the code may rely on in each state that a run can come to.

ghost use Rattle.std.specs.Prelude.{◌∷◌, ◌≤◌, List, Bool, IsTrue, length};
ghost use Rattle.key_source.specs.declared.Key.{Key};
ghost use Rattle.pad_steps.specs.declared.answers.Shown.{Shown};
ghost use Rattle.pad_steps.specs.declared.answers.Completion.{Completion};
ghost use Rattle.pad_steps.specs.declared.commands.Command.{Command};
ghost use Rattle.pad_steps.specs.declared.steps.Step.{Step};
ghost use Rattle.pad_steps.specs.declared.steps.DiskWord.{DiskWord};
ghost use Rattle.entry_core.specs.Entries.{Entry, entered};
ghost use Rattle.flat_machine.specs.Settings.{Setting};
ghost use Rattle.flat_machine.specs.State.{Flat, opening, ready_opening};
ghost use Rattle.flat_machine.specs.Machine.{next};
ghost use Rattle.flat_machine.specs.PinFacts.{passes_submit, is_part_length, EndsBy, PassesPartCounts, HasNoneOrLeast};
ghost use Rattle.flat_machine.specs.Sound.{Sound, SubmitsOk};
ghost use Rattle.flat_machine.specs.EveryRun.{InEveryRun, AtEveryStep, after_step};

/// Pending commands pass what Submit let pass, and none is pending while the device is off.
pub fn sound_steps()
    ensures first { (passes : Command → Bool) → Sound passes opening.shared }
    ensures ready { (passes : Command → Bool) → Sound passes ready_opening.shared }
    ensures next { (passes : Command → Bool) → AtEveryStep (λ set state step word.
        SubmitsOk passes set.pin_rules step → Sound passes state.shared → Sound passes (after_step set state step word).shared) }
{}

/// An entry has at most its greatest number of digits, and ends with none or at least its least.
pub fn entry_lengths()
    ensures most { (entry : Entry) (presses : List Key) → length (entered entry presses) ≤ entry.greatest }
    ensures ended { (entry : Entry) (presses : List Key) (key : Key) (shown : Shown) (completion : Completion) →
        entry.least ≤ entry.greatest → EndsBy entry presses key shown completion → HasNoneOrLeast entry (entered entry (key ∷ presses)) }
{}

/// In every run, pending commands passed Submit, and none is pending while the device is off.
pub fn sound_runs()
    ensures { InEveryRun (λ set state. Sound (passes_submit set.pin_rules) state.shared) }
{}

/// The part buffer is empty or has 16, 32 or 48 nibbles: in every run, and after each step from a state in which pending key parts have such a count.
pub fn part_lengths()
    ensures runs { InEveryRun (λ set state. IsTrue (is_part_length (length state.shared.part))) }
    ensures step { (passes : Command → Bool) (set : Setting) (state : Flat) (step : Step) (word : DiskWord) →
        PassesPartCounts passes → Sound passes state.shared → IsTrue (is_part_length (length state.shared.part)) →
        IsTrue (is_part_length (length (after_step set state step word).shared.part)) }
{}
