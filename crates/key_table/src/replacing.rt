//! A slot of a store, replaced with the record of a row.
ghost use Rattle.std.specs.Prelude.{◌≡◌, ◌<◌, IfSome, None, OnErr, OnOk, Some};
ghost use Rattle.std.specs.Option.{option_copied};
ghost use Rattle.disk_core.specs.DiskStates.{EachImage};
ghost use Rattle.disk_core.specs.Disks.{DeviceCalls, fault_in};
ghost use Rattle.key_record.specs.Records.{IsRow, spelled};
ghost use Rattle.key_table.specs.StoredRows.{put_bytes};
ghost use Rattle.nv_store.specs.Cells.{IsTorn};
ghost use Rattle.nv_store.specs.Stores.{IsInStep};

use disk_core::{Disk, DiskError};
use key_attributes::KeyRow;
use key_record::{RECORD_BYTES, write_record};
use nv_store::{SLOTS, Store};

/// Replaces the cell of a slot with the record of a row, or with the empty one, by four device calls.
pub fn replace_row<D: Disk>(
    store: &mut Store,
    disk: &mut D,
    slot: u8,
    row: Option<&KeyRow>,
) -> Result<(), DiskError>
    requires slot { slot < SLOTS }
    requires in_step { IsInStep (D.state disk.old) store.old.bytes }
    ensures valid { IsRow (option_copied row.entry) }
    ensures calls { DeviceCalls 4 (D.state disk.old) (D.state disk.new) (fault_in result) }
    ensures ok { OnOk result (IfSome store.old.bytes (λ bytes.
        store.new.bytes ≡ Some (put_bytes bytes slot (option_copied row.entry)))) }
    ensures in_step { OnOk result (IsInStep (D.state disk.new) store.new.bytes) }
    ensures torn { OnErr result (IfSome store.old.bytes (λ bytes.
        EachImage (D.state disk.new) (IsTorn bytes slot (spelled (option_copied row.entry))))) }
    ensures err { OnErr result (store.new.bytes ≡ None) }
{
    let mut cell = [0; RECORD_BYTES];
    write_record(row, &mut cell);
    store.replace(disk, slot, &cell)
}
