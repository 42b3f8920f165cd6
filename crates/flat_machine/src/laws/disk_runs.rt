//! The record that is carried along a run over a disk: of nothing, of an arming, of a step, and of one run after another.
//! Each law is a function with nothing to do.
ghost use Rattle.std.specs.Prelude.{◌≡◌, ◌++◌, ◌∷◌, [], IfSome, IsTrue, List, None, Some, false, replicate, true, ℕ};
ghost use Rattle.disk_core.specs.DiskStates.{EachImage};
ghost use Rattle.disk_core.specs.Disks.{ArmsDisk};
ghost use Rattle.disk_core.specs.declared.disk.Strike.{Strike};
ghost use Rattle.disk_core.specs.declared.disk.TheConstants.{DISK_BYTES};
ghost use Rattle.flat_machine.specs.Deeds.{Arms, Deed, FitsDeeds, Takes, acts_in, after_deeds, loads_rows};
ghost use Rattle.flat_machine.specs.DiskFacts.{TellsApart};
ghost use Rattle.flat_machine.specs.DiskRuns.{NonePendingOff, RunOnDisk};
ghost use Rattle.flat_machine.specs.DiskSteps.{ShowsKeys, StepOnDisk};
ghost use Rattle.flat_machine.specs.KeyLayout.{key_layout};
ghost use Rattle.flat_machine.specs.Machine.{Act, next, run};
ghost use Rattle.flat_machine.specs.Settings.{Setting};
ghost use Rattle.flat_machine.specs.State.{Flat, Shared, is_ready};
ghost use Rattle.flat_machine.specs.StoreHistory.{Holds, HoldsFrom, Layout, These};
ghost use Rattle.pad_steps.specs.declared.steps.DiskWord.TheVariants as words;
ghost use Rattle.pad_steps.specs.declared.steps.Step.{Step};

use disk_core::Disk;
use key_record::laws::records_are_read_back;
use key_table::laws::bytes_show_rows;

/// Runs join: nothing, one step, one arming, and one run after another.
pub fn disk_runs_join<D: Disk>()
    ensures none { (layout : Layout) (set : Setting) (state : Flat) (s : D) →
        RunOnDisk layout set state [] (D.state s) (D.state s) }
    ensures arm { (layout : Layout) (set : Setting) (state : Flat) (call : ℕ) (strike : Strike) (s t : D) →
        ArmsDisk call strike (D.state s) (D.state t) →
        RunOnDisk layout set state (Arms call strike ∷ []) (D.state s) (D.state t) }
    ensures step { (layout : Layout) (set : Setting) (state : Flat) (act : Act) (s t : D) → TellsApart layout →
        StepOnDisk layout set state.shared (next set state act.step act.word).state.shared act.step act.word (D.state s) (D.state t) →
        RunOnDisk layout set state (Takes act ∷ []) (D.state s) (D.state t) }
    ensures joined { (layout : Layout) (set : Setting) (state : Flat) (first second : List Deed) (s t u : D) →
        RunOnDisk layout set state first (D.state s) (D.state t) →
        RunOnDisk layout set (after_deeds set state first) second (D.state t) (D.state u) →
        RunOnDisk layout set state (first ++ second) (D.state s) (D.state u) }
{}

/// No bytes of the pad's store show rows and have a bad slot.
pub fn key_layout_tells_apart()
    ensures { TellsApart key_layout }
{}

/// Zero bytes have no bad slot.
pub fn zero_bytes_have_no_bad_slot()
    ensures { key_layout.bad_slot (replicate DISK_BYTES 0) ≡ None }
{
    records_are_read_back();
    bytes_show_rows();
}

/// A store reads as bad at the lowest bad slot of bytes that were an image before the step; and where the images show the
/// kept rows, or these with the slot in doubt replaced, only before rows were loaded.
pub fn bad_stores_were_read<D: Disk>()
    ensures bytes { (layout : Layout) (set : Setting) (before after : Shared) (step : Step) (slot : ℕ) (s t : D) →
        StepOnDisk layout set before after step (words.Bad slot) (D.state s) (D.state t) →
        IfSome (D.state s).content (λ _. (bytes : List ℕ) × (D.state s).image bytes × (layout.bad_slot bytes ≡ Some slot)) }
    ensures unloaded { (layout : Layout) (set : Setting) (before after : Shared) (step : Step) (slot : ℕ) (s t : D) →
        TellsApart layout → StepOnDisk layout set before after step (words.Bad slot) (D.state s) (D.state t) →
        EachImage (D.state s) (ShowsKeys layout before) → IfSome (D.state s).content (λ _. before.loaded ≡ false) }
{}

/// Once rows were loaded in a run, the machine knows it after the run.
pub fn loaded_rows_are_known()
    ensures { (set : Setting) (state : Flat) (deeds : List Deed) → FitsDeeds set state deeds →
        IsTrue (loads_rows deeds) → (after_deeds set state deeds).shared.loaded ≡ true }
{}

/// Until rows are loaded, from a device that is not ready, the history of the store leaves the bytes as they are.
pub fn nothing_is_written_before_a_loading()
    ensures { (layout : Layout) (set : Setting) (state : Flat) (deeds : List Deed) (first bytes : List ℕ) →
        NonePendingOff state.shared → is_ready state.shared.device ≡ false → loads_rows deeds ≡ false →
        HoldsFrom layout set state (These first) (acts_in deeds) bytes → bytes ≡ first }
{}

/// The history of the store, one step longer; and until rows are loaded each image is one of entry.
pub fn store_history_goes_on<D: Disk>()
    ensures step { (layout : Layout) (set : Setting) (state : Flat) (acts : List Act) (first : List ℕ) (act : Act) (s t : D) →
        run set acts ≡ state →
        StepOnDisk layout set state.shared (next set state act.step act.word).state.shared act.step act.word (D.state s) (D.state t) →
        EachImage (D.state s) (Holds layout set first acts) →
        EachImage (D.state t) (Holds layout set first (acts ++ act ∷ [])) }
    ensures unloaded { (layout : Layout) (set : Setting) (state : Flat) (deeds : List Deed) (s t : D) →
        NonePendingOff state.shared → is_ready state.shared.device ≡ false → loads_rows deeds ≡ false →
        RunOnDisk layout set state deeds (D.state s) (D.state t) →
        EachImage (D.state t) (λ bytes. (D.state s).image bytes) }
{}
