//! What is so of calls one after another, of the size of a disk, and of bytes at a place in a list. Each law is a
//! function with nothing to do: that its contract is proved is the law.
ghost use Rattle.std.specs.Prelude.{◌≡◌, ◌+◌, ◌-◌, ◌≤◌, ◌<◌, ◌⊎◌, ℕ, List, length, slice_index, slice_range, Option, Some, None, false};
ghost use Rattle.disk_core.specs.DiskStates.{splice, TornWithin};
ghost use Rattle.disk_core.specs.Disks.{DeviceCalls};
ghost use Rattle.disk_core.specs.declared.disk.DiskError.{DiskError};
ghost use Rattle.disk_core.specs.declared.disk.TheConstants.{DISK_BYTES};

use crate::disk::Disk;

/// A run of calls with no fault and then another run are one run.
pub fn calls_are_runs<D: Disk>()
    // No call at all, on a disk that is on.
    ensures none { (s : D) → (D.state s).off ≡ false → DeviceCalls 0 (D.state s) (D.state s) None }
    ensures joined { (n m : ℕ) (s t u : D) (fault : Option DiskError) → DeviceCalls n (D.state s) (D.state t) None → DeviceCalls m (D.state t) (D.state u) fault → DeviceCalls (n + m) (D.state s) (D.state u) fault }

    // A run that ended with a fault counts as any longer one.
    ensures longer { (n m : ℕ) (s t : D) (e : DiskError) → DeviceCalls n (D.state s) (D.state t) (Some e) → DeviceCalls (n + m) (D.state s) (D.state t) (Some e) }
{}

/// How many bytes a disk has.
pub fn sizes()
    ensures disk { DISK_BYTES ≡ 12352 }
{}

/// What stands where in a list with other elements from a place on.
pub fn splices()
    ensures length { (b : List ℕ) (at : ℕ) (part : List ℕ) → at + length part ≤ length b → length (splice b at part) ≡ length b }
    ensures below { (b : List ℕ) (at : ℕ) (part : List ℕ) → at + length part ≤ length b → (i : ℕ) → i < at → slice_index (splice b at part) i ≡ slice_index b i }
    ensures inside { (b : List ℕ) (at : ℕ) (part : List ℕ) → at + length part ≤ length b → (i : ℕ) → at ≤ i → i < at + length part → slice_index (splice b at part) i ≡ slice_index part (i - at) }
    ensures above { (b : List ℕ) (at : ℕ) (part : List ℕ) → at + length part ≤ length b → (i : ℕ) → at + length part ≤ i → slice_index (splice b at part) i ≡ slice_index b i }

    // The range of the part, and a range that it does not touch.
    ensures range { (b : List ℕ) (at : ℕ) (part : List ℕ) → at + length part ≤ length b → (k : ℕ) → k ≡ at + length part → slice_range (splice b at part) at k ≡ part }
    ensures range_apart { (b : List ℕ) (at : ℕ) (part : List ℕ) → at + length part ≤ length b → (i k : ℕ) → i ≤ k → k ≤ length b → (k ≤ at) ⊎ (at + length part ≤ i) → slice_range (splice b at part) i k ≡ slice_range b i k }

    // A list's own elements.
    ensures own { (b : List ℕ) (at n : ℕ) → at + n ≤ length b → splice b at (slice_range b at (at + n)) ≡ b }
{}

/// Which lists are another one, torn within a range: itself, and those that agree with it outside the range.
pub fn torn_lists()
    ensures same { (b : List ℕ) (at n : ℕ) → at + n ≤ length b → TornWithin at n b b }
    ensures outside { (b c : List ℕ) (at n : ℕ) → at + n ≤ length b → length c ≡ length b → ((i : ℕ) → (i < at) ⊎ (at + n ≤ i) → slice_index c i ≡ slice_index b i) → TornWithin at n b c }
    ensures length { (b c : List ℕ) (at n : ℕ) → at + n ≤ length b → TornWithin at n b c → length c ≡ length b }
{}
