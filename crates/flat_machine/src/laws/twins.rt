//! What the digits of a PIN do not change.

ghost use Rattle.std.specs.Prelude.{◌≡◌, List, ℕ};
ghost use Rattle.pad_steps.specs.declared.steps.DiskWord.{DiskWord};
ghost use Rattle.flat_machine.specs.Settings.{Setting};
ghost use Rattle.flat_machine.specs.State.{Flat, opening};
ghost use Rattle.flat_machine.specs.Machine.{Act, next, release, run_from, lines_from, status, next_work, fits};
ghost use Rattle.flat_machine.specs.Power.{word_fate};
ghost use Rattle.flat_machine.specs.Twins.{Alike, AlikeAfter, Twins};
ghost use Rattle.flat_machine.specs.StoreHistory.{Layout, Holds};
ghost use Rattle.flat_machine.specs.EveryRun.{AtTwinSteps};

/// Two states that are alike, and twin steps that release the same, go on alike and say the same.
pub fn unwinding()
    ensures { AtTwinSteps (λ set first second step other word.
        release set second other ≡ release set first step → AlikeAfter (next set first step word) (next set second other word)) }
{}

/// Twins print alike: two runs from one state that differ in masked presses alone, and release the same values, have the same lines.
pub fn twins_print_alike()
    ensures { (set : Setting) (start : Flat) (first second : List Act) →
        Twins set start first second → lines_from set start second ≡ lines_from set start first }
{}

/// Twins end in states that are alike.
pub fn twins_end_alike()
    ensures { (set : Setting) (start : Flat) (first second : List Act) →
        Twins set start first second → Alike (run_from set start first) (run_from set start second) }
{}

/// Every run is its own twin.
pub fn twin_of_itself()
    ensures { (set : Setting) (start : Flat) (acts : List Act) → Twins set start acts acts }
{}

/// States that are alike have one status.
pub fn alike_status()
    ensures { (first second : Flat) → Alike first second → status second ≡ status first }
{}

/// In states that are alike the same step is due, and loaded rows have the same fate.
pub fn alike_work()
    ensures due { (first second : Flat) → Alike first second → next_work second.shared ≡ next_work first.shared }
    ensures fate { (first second : Flat) (word : DiskWord) →
        Alike first second → word_fate second.shared word ≡ word_fate first.shared word }
{}

/// The words that fit are the same in twins, and so are the bytes that the store can have.
pub fn twins_store()
    ensures words { AtTwinSteps (λ set first second step other word. fits set second.shared other word ≡ fits set first.shared step word) }
    ensures bytes { (layout : Layout) (set : Setting) (first second : List Act) (read bytes : List ℕ) →
        Twins set opening first second → Holds layout set read first bytes → Holds layout set read second bytes }
{}
