// The slot that is in doubt.
ghost use Rattle.std.specs.Prelude.{◌≡◌};
ghost use Rattle.std.specs.Option.{option_copied};

use key_attributes::KeyRow;
use std::marker::Model;

/// A slot whose replacement a fault or a cut struck, and the row that it was to get. None was to empty it.
#[derive(Drop)]
pub struct Doubt {
    slot: u8,
    row: Option<KeyRow>,
}

impl Model for Doubt {
    ghost use Rattle.key_table.specs.Changes.{Change};

    ghost Value = { Change };

    ghost view = { λ d. record { slot = d.slot; row = d.row } };
}

impl Doubt {
    /// The slot was to get this row, or none.
    pub fn of(slot: u8, row: Option<KeyRow>) -> Doubt
        ensures slot { result.slot ≡ slot }
        ensures row { result.row ≡ row }
    {
        Doubt { slot, row }
    }

    pub fn slot(&self) -> u8
        ensures { result ≡ self.now.slot }
    {
        self.slot
    }

    pub fn row(&self) -> Option<&KeyRow>
        ensures { option_copied result ≡ self.now.row }
    {
        self.row.as_ref()
    }
}
