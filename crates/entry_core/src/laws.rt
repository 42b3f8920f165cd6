//! Laws of entries. Each is a function with nothing to do, called for its clause.
ghost use Rattle.std.specs.Prelude.{◌≡◌, [], List, length, ℕ};
ghost use Rattle.key_source.specs.declared.Key.{Key};
ghost use Rattle.entry_core.specs.Entries.{Entry, entered};
ghost use Rattle.entry_core.specs.Presses.{EndsWith, FitEntry, active_presses, after_press, after_presses, press_seen};
ghost use Rattle.entry_core.specs.declared.seen.Seen.TheVariants.{Ended};
ghost use Rattle.pad_steps.specs.declared.answers.Completion.{Completion};
ghost use Rattle.pad_steps.specs.declared.answers.Shown.{Shown};

/// After any presses, one after another, the digits are those of the list of all active keys among them.
pub fn digits_are_entered()
    ensures { (entry : Entry) (presses : List Key)
        → after_presses entry presses ≡ entered entry (active_presses entry presses) }
{}

/// An entry that CANCEL ends has no digit, one that ends by itself the greatest number of them, and one that another
/// key ends at least the least number.
pub fn ends_with_enough()
    ensures { (entry : Entry) (digits : List ℕ) (key : Key) (shown : Shown) (completion : Completion)
        → press_seen entry (length digits) key ≡ Ended shown completion
        → EndsWith entry completion (after_press entry key digits) }
{}

/// A press leaves digits that fit their entry: no more than it takes, and each a digit of its kind. So does its begin.
pub fn digits_fit()
    ensures none { (entry : Entry) → FitEntry entry [] }
    ensures press { (entry : Entry) (key : Key) (digits : List ℕ)
        → FitEntry entry digits → FitEntry entry (after_press entry key digits) }
{}
