//! What is so of the bytes that a replacement leaves. Each law is a function with nothing to do, or that only calls the
//! laws below it: that its contract is proved is the law.
ghost use Rattle.std.specs.Prelude.{◌≡◌, ◌<◌, IsTrue, ℕ, List, length};
ghost use Rattle.nv_store.specs.Cells.{HasNew, HasOldOrNew, IsTorn, is_torn, with_cell};

use disk_core::DISK_BYTES;
use disk_core::laws::splices;

/// Bytes that a fault or a cut left have each slot's old cell, but for the slot that was replaced, which has its old or
/// its new cell, whole. So a torn selector does no harm: each of its 256 values names a whole half. After a replacement
/// the slot has the new cell, and each other its own.
pub fn slots_stay_whole()
    ensures torn { (bytes : List ℕ) (slot : ℕ) (cell torn : List ℕ) →
        length bytes ≡ DISK_BYTES → slot < 64 → length cell ≡ 96 → IsTorn bytes slot cell torn →
        HasOldOrNew bytes slot cell torn }
    ensures replaced { (bytes : List ℕ) (slot : ℕ) (cell : List ℕ) →
        length bytes ≡ DISK_BYTES → slot < 64 → length cell ≡ 96 →
        HasNew bytes slot cell (with_cell bytes slot cell) }
{
    splices();
}

/// The test tells of all bytes of a disk whether they are torn.
pub fn torn_bytes_are_told()
    ensures torn { (bytes : List ℕ) (slot : ℕ) (cell torn : List ℕ) →
        length bytes ≡ DISK_BYTES → slot < 64 → length cell ≡ 96 → IsTorn bytes slot cell torn →
        IsTrue (is_torn bytes slot cell torn) }
    ensures told { (bytes : List ℕ) (slot : ℕ) (cell torn : List ℕ) →
        length bytes ≡ DISK_BYTES → slot < 64 → length torn ≡ DISK_BYTES → IsTrue (is_torn bytes slot cell torn) →
        IsTorn bytes slot cell torn }
{
    splices();
}
