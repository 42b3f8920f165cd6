//! What a PIN entry says, and when a PIN is held.

ghost use Rattle.std.specs.Prelude.{◌≡◌, ◌∷◌, ◌≤◌, [], IsTrue, List, false, length, true, ℕ};
ghost use Rattle.key_source.specs.declared.Key.{Key};
ghost use Rattle.pad_steps.specs.declared.answers.Shown.{Shown};
ghost use Rattle.pad_steps.specs.declared.steps.Step.{Step};
ghost use Rattle.pad_steps.specs.declared.steps.DiskWord.{DiskWord};
ghost use Rattle.entry_core.specs.Entries.{Entry, entered};
ghost use Rattle.flat_machine.specs.Settings.{Setting};
ghost use Rattle.flat_machine.specs.State.{Flat, is_off};
ghost use Rattle.flat_machine.specs.Machine.{fits};
ghost use Rattle.pad_steps.specs.Accounts.{all_decimal};
ghost use Rattle.flat_machine.specs.PinFacts.{PinAfter, PoweredOff, leaves_pin, HidesPin, HidesPress, EndsBy};
ghost use Rattle.flat_machine.specs.EveryRun.{InEveryRun, AtEveryStep, AtEveryPress, AtEveryFinish, after_step};
ghost use Rattle.flat_machine.specs.WorkFacts.{WorkIs, is_refusal, is_release};
ghost use Rattle.pad_steps.specs.declared.answers.Completion.TheVariants as completions;
ghost use Rattle.pad_steps.specs.declared.steps.Step.TheVariants as steps;
ghost use Rattle.pad_steps.specs.declared.steps.DiskWord.TheVariants as words;

/// No digit of a PIN entry stands in a line: a masked press is printed without its key, KEY events show no digit, and the reply has the number of digits alone.
pub fn pin_entry_hides()
    ensures outs { AtEveryPress HidesPin }
    ensures press { AtEveryPress HidesPress }
{}

/// A PIN comes to be held by the press alone that ends a PIN entry, and is then the digits entered; CANCEL leaves none.
pub fn pin_is_held()
    ensures after { AtEveryStep (λ set state step word. PinAfter state step (after_step set state step word).held) }
    ensures canceled { (entry : Entry) (presses : List Key) (key : Key) (shown : Shown) →
        EndsBy entry presses key shown completions.Cancel → entered entry (key ∷ presses) ≡ [] }
{}

/// Steps of sessions, Submit, Cancel, Tick and Ask leave the held PIN as it is.
pub fn pin_is_left()
    ensures { AtEveryStep (λ set state step word. IsTrue (leaves_pin step) → (after_step set state step word).held ≡ state.held) }
{}

/// A command that is refused leaves the held PIN; one that releases an answer uses it up, unless it is maintained.
pub fn used_pin()
    ensures refused { AtEveryFinish (λ set state word.
        WorkIs is_refusal set state → (after_step set state steps.Finish word).held ≡ state.held) }
    ensures used { AtEveryFinish (λ set state word.
        WorkIs is_release set state → state.shared.maintain ≡ false → (after_step set state steps.Finish word).held ≡ []) }
    ensures maintained { AtEveryFinish (λ set state word.
        WorkIs is_release set state → state.shared.maintain ≡ true → (after_step set state steps.Finish word).held ≡ state.held) }
{}

/// A held PIN has at most 16 digits, each a decimal digit.
pub fn held_digits()
    ensures few { InEveryRun (λ set state. length state.held ≤ 16) }
    ensures decimal { InEveryRun (λ set state. IsTrue (all_decimal state.held)) }
{}

/// After a cut in any step, and after Off, the device is off, nothing is pending, no PIN and no key part is left, and maintain is off.
pub fn power_goes()
    ensures cut { (set : Setting) (state : Flat) (step : Step) (count : ℕ) →
        IsTrue (fits set state.shared step (words.Cut count)) → PoweredOff (after_step set state step (words.Cut count)) }
    ensures off { (set : Setting) (state : Flat) (word : DiskWord) →
        is_off state.shared.device ≡ false → PoweredOff (after_step set state steps.Off word) }
{}
