// What a loading came to.
ghost use Rattle.std.specs.Prelude.{◌≡◌, ◌≤◌, length, vec_capacity, IsTrue};
ghost use Rattle.flat_machine.specs.DiskSteps.{word_of};
ghost use Rattle.flat_machine.specs.Power.{doubt_carried_out};
ghost use Rattle.key_table.specs.Tables.{is_table};
ghost use Rattle.std.specs.Option.{option_copied};

use crate::doubt::Doubt;
use disk_core::DiskError;
use key_attributes::KeyRow;
use key_table::{put_row, same_rows};
use pad_steps::DiskWord;

/// Whether the loaded rows are the kept ones with the slot in doubt replaced. The kept ones are then gone.
pub fn doubt_carried_out(
    doubt: Option<&Doubt>,
    kept: &mut Vec<(u8, KeyRow)>,
    loaded: &[(u8, KeyRow)],
) -> bool
    requires table { IsTrue (is_table kept.old.items) }
    requires few { length kept.old.items ≤ 64 }
    requires room { 65 ≤ vec_capacity kept.old }
    ensures carried_out { result ≡ doubt_carried_out (option_copied doubt.entry) kept.old.items loaded.now }
    ensures room { 65 ≤ vec_capacity kept.new }
{
    let Some(doubt) = doubt else {
        return false;
    };
    put_row(kept, doubt.slot(), doubt.row());
    same_rows(loaded, kept.as_slice())
}

/// The word of a fault after so many slots.
pub fn fault_word(count: u8, fault: DiskError) -> DiskWord
    ensures { result ≡ word_of count DiskWord.Quiet (Some fault) }
{
    match fault {
        DiskError::Failed => DiskWord::Failed(count),
        DiskError::Off => DiskWord::Cut(count),
    }
}
