//! What the machine's device calls do, from what the table of keys does to its disk. Each law is a function with nothing
//! to do, or that only calls a law below it.
ghost use Rattle.std.specs.Prelude.{◌*◌, ◌≡◌, ◌≤◌, List, Option, Result, false, true, ℕ};
ghost use Rattle.disk_core.specs.Disks.{StartsDisk, StopsDisk};
ghost use Rattle.disk_core.specs.declared.disk.DiskError.{DiskError};
ghost use Rattle.flat_machine.specs.DiskFacts.{IsKeptStore, KeepsDevice, KeepsStore, ReplacesSlots, is_off_step, starts, stays, stops};
ghost use Rattle.flat_machine.specs.DiskSteps.{DeviceWork, done_word, load_word, word_of};
ghost use Rattle.flat_machine.specs.FinishSteps.{performs, plan_of};
ghost use Rattle.flat_machine.specs.Kept.{Kept, kept_next};
ghost use Rattle.flat_machine.specs.KeyLayout.{key_layout};
ghost use Rattle.flat_machine.specs.Machine.{next_off, plan};
ghost use Rattle.flat_machine.specs.Power.{Loading, Nothing, Replacing, loads};
ghost use Rattle.flat_machine.specs.Settings.{Setting};
ghost use Rattle.flat_machine.specs.State.{Shared, is_off};
ghost use Rattle.flat_machine.specs.declared.types.Owner.{Owner};
ghost use Rattle.flat_machine.specs.declared.types.Work.TheVariants.{Load};
ghost use Rattle.flat_machine.specs.declared.types.Work.{Work};
ghost use Rattle.key_table.specs.Changes.{Change};
ghost use Rattle.key_table.specs.KeyStores.{KeyStore, LoadsStore, MakesChanges};
ghost use Rattle.key_table.specs.declared.LoadFault.{LoadFault};
ghost use Rattle.nv_store.specs.Stores.{IsInStep};
ghost use Rattle.pad_steps.specs.declared.steps.DiskWord.TheVariants.{Quiet};
ghost use Rattle.pad_steps.specs.declared.steps.DiskWord.{DiskWord};
ghost use Rattle.pad_steps.specs.declared.steps.Step.{Step};
ghost use Rattle.pin_blocks.specs.PinRules.{DrawsFewWords};
ghost use Rattle.request_queue.specs.Requests.{gone_count};

use disk_core::Disk;
use disk_core::laws::splices;

/// What the table's calls do to its disk is device work of the plan and the word that the machine has for it.
pub fn table_calls_are_device_work<D: Disk>()
    ensures changes { (todo : List Change) (count : ℕ) (fault : Option DiskError) (old new : KeyStore) (s t : D) →
        (D.state s).off ≡ false → IsInStep (D.state s) old.bytes →
        MakesChanges todo count fault old new (D.state s) (D.state t) →
        DeviceWork key_layout (Replacing todo) (word_of count (done_word todo) fault) (D.state s) (D.state t) }
    ensures loading { (result : Result (Unit {0}) LoadFault) (old new : KeyStore) (s t : D) →
        (D.state s).off ≡ false → LoadsStore result old new (D.state s) (D.state t) →
        DeviceWork key_layout Loading (load_word result new.rows) (D.state s) (D.state t) }
{
    splices();
}

/// A Finish that replaces slots, a loading by RESET and by Boot, and Off, as steps on the disk: after each of them the disk
/// belongs to the machine again.
pub fn device_steps_are_on_disk<D: Disk>()
    ensures replaced { (set : Setting) (shared : Shared) (held : List ℕ) (owner : Owner) (work : Work) (todo : List Change) (count : ℕ) (fault : Option DiskError) (old new : KeyStore) (s t : D) →
        ReplacesSlots shared work todo count fault old new (D.state s) (D.state t) →
        KeepsStore shared (performs set shared held owner work (word_of count (done_word todo) fault)).shared stays (Replacing todo)
        (word_of count (done_word todo) fault) new (D.state s) (D.state t) }
    ensures reset { (set : Setting) (shared : Shared) (held : List ℕ) (owner : Owner) (result : Result (Unit {0}) LoadFault) (old new : KeyStore) (s t : D) →
        is_off shared.device ≡ false → IsKeptStore shared old (D.state s) →
        LoadsStore result old new (D.state s) (D.state t) →
        KeepsStore shared (performs set shared held owner Load (load_word result new.rows)).shared stays Loading
        (load_word result new.rows) new (D.state s) (D.state t) }
    ensures boot { (shared : Shared) (result : Result (Unit {0}) LoadFault) (old new : KeyStore) (s on t : D) →
        is_off shared.device ≡ true → IsKeptStore shared old (D.state s) →
        StartsDisk (D.state s) (D.state on) → LoadsStore result old new (D.state on) (D.state t) →
        KeepsStore shared (loads shared (load_word result new.rows)).shared starts Loading
        (load_word result new.rows) new (D.state s) (D.state t) }
    ensures off { (shared : Shared) (store : KeyStore) (s t : D) →
        is_off shared.device ≡ false → IsKeptStore shared store (D.state s) → StopsDisk (D.state s) (D.state t) →
        KeepsStore shared (next_off shared).shared stops Nothing Quiet store (D.state s) (D.state t) }
{
    splices();
}

/// A step without a device call leaves the rows and the device, unless it is an Off of a device that is on, and so does a
/// work without one; and the disk stays as it is.
pub fn quiet_steps_leave_the_disk<D: Disk>()
    ensures kept { (set : Setting) (kept : Kept) (step : Step) →
        plan set kept.shared step ≡ Nothing → (is_off_step step ≡ true → is_off kept.shared.device ≡ true) →
        KeepsDevice kept.shared (kept_next set kept step Quiet).state.shared }
    ensures works { (set : Setting) (shared : Shared) (held : List ℕ) (owner : Owner) (work : Work) →
        plan_of shared work ≡ Nothing → KeepsDevice shared (performs set shared held owner work Quiet).shared }
    ensures on_disk { (before after : Shared) (store : KeyStore) (d : D) →
        KeepsDevice before after → IsKeptStore before store (D.state d) →
        KeepsStore before after stays Nothing Quiet store (D.state d) (D.state d) }
{}

/// Each ended request has drawn at most 255 fill words, if no request of the PIN work draws more.
pub fn few_words_are_drawn()
    ensures { (set : Setting) (kept : Kept) (step : Step) (word : DiskWord) →
        DrawsFewWords set.pin_rules → kept.shared.drawn ≤ 255 * gone_count kept.shared.requests →
        (kept_next set kept step word).state.shared.drawn ≤ 255 * gone_count (kept_next set kept step word).state.shared.requests }
{}
