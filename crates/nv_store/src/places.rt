// Where the parts of a slot stand in the bytes of a store.
ghost use Rattle.std.specs.Prelude.{◌≡◌, ◌+◌, ◌<◌, ◌≤◌, [], ◌∷◌, length, slice_range};
ghost use Rattle.disk_core.specs.DiskStates.{splice};
ghost use Rattle.nv_store.specs.Cells.{place_of, spare};

use crate::store::{CELL_BYTES, SLOTS};

/// Where a half of a slot begins.
pub fn half_place(slot: u8, half: u8) -> usize
    requires slot { slot < SLOTS }
    requires half { half < 2 }
    ensures { result ≡ place_of slot half }
{
    64 + (2 * slot as usize + half as usize) * CELL_BYTES
}

/// The half of a slot that does not count.
pub fn spare_half(bytes: &[u8], slot: u8) -> u8
    requires { slot < length bytes.now }
    ensures { result ≡ spare bytes.now slot }
{
    1 - bytes[slot as usize] % 2
}

/// The 96 bytes from a place on.
pub fn cell_at(bytes: &[u8], at: usize) -> &[u8; 96]
    requires { at + 96 ≤ length bytes.now }
    ensures { result.now ≡ slice_range bytes.now at (at + 96) }
{
    bytes[at..].first_chunk::<96>().unwrap()
}

/// Puts a cell at a place, and a selector.
pub fn put_cell(bytes: &mut [u8], at: usize, cell: &[u8; 96], slot: u8, selector: u8)
    requires slot { slot < length bytes.old }
    requires cell { at + 96 ≤ length bytes.old }
    ensures { bytes.new ≡ splice (splice bytes.old at cell.now) slot (selector ∷ []) }
{
    bytes[at..at + 96].copy_from_slice(cell);
    bytes[slot as usize] = selector;
}
