// What calls the disk, and what happens where the power goes. No call takes memory.
ghost use Rattle.std.specs.Prelude.{◌≡◌, ◌==◌, ◌<◌, ◌≤◌, ◌++◌, ◌∷◌, [], ℕ, IsTrue, List, Some, false, if◌then◌else◌, is_some, length, vec_capacity};
ghost use Rattle.std.specs.Option.{option_map};
ghost use Rattle.flat_machine.specs.DiskSteps.{word_of};
ghost use Rattle.flat_machine.specs.Power.{fate_of, powers_off, word_fate};
ghost use Rattle.flat_machine.specs.Sessions.{service_events};
ghost use Rattle.key_table.specs.Changes.{change_to, erasure, erasures};
ghost use Rattle.key_table.specs.KeyRows.{slot_for, slot_of};
ghost use Rattle.key_table.specs.KeyStores.{lowest_row};
ghost use Rattle.nv_store.specs.Stores.{IsInStep};
ghost use Rattle.key_table.specs.Tables.{is_table};
ghost use Rattle.pad_machine.specs.Memory.{pending_in_all};
ghost use Rattle.pad_machine.specs.Prepares.{IsCopy, KeepsRequests};
ghost use Rattle.pad_machine.specs.Replacing.{LoadedBy, MadeChanges, after_loading, after_replacing, stopped_by};
ghost use Rattle.pad_machine.specs.Stands.{shared_of};
ghost use Rattle.pad_steps.specs.declared.answers.Event.TheVariants.{Initialized};
ghost use Rattle.pad_steps.specs.declared.steps.DiskWord.TheVariants.{Done, Quiet};
ghost use Rattle.request_queue.specs.Requests.{request_in_work};

use super::Shared;
use crate::doubt::Doubt;
use crate::endings::{Ending, end_requests};
use crate::fates::{doubt_carried_out, fault_word};
use crate::pad::Stepped;
use crate::saying::announce;
use disk_core::{Disk, DiskError};
use flat_machine::types::Device;
use key_attributes::KeyRow;
use key_table::laws::names_stand_in_slots;
use key_table::{LoadFault, PutFault, copy_rows, same_rows};
use pad_steps::{DiskWord, Event, Fate, Outs, Refusal, Rows};
use pin_blocks::PinWork;

impl<W: PinWork + Drop> Shared<W> {
    /// The device.
    pub fn device(&self) -> Device
        ensures { result ≡ self.now.device }
    {
        self.device
    }

    /// Whether a request is in work.
    pub fn has_work(&self) -> bool
        ensures { result ≡ is_some (request_in_work self.now.requests) }
    {
        self.requests.in_work().is_some()
    }

    /// Loads the store, where it can be, and takes its rows. `kept` has the rows of before.
    pub fn load<D: Disk>(&mut self, disk: &mut D, mut kept: Vec<(u8, KeyRow)>) -> Stepped
        requires { IsCopy self.old.store.rows kept }
        ensures loaded { LoadedBy result.word self.old.store self.new.store (D.state disk.old) (D.state disk.new) }
        ensures state { shared_of self.new ≡ after_loading (shared_of self.old) result.word }
        ensures queue { KeepsRequests self.old self.new }
        ensures fate { result.fate ≡ word_fate (shared_of self.old) result.word }
    {
        let _rows = self.keys.rows();
        match self.keys.load(disk) {
            Ok(()) => {
                let fate = self.fate(&mut kept);
                copy_rows(self.keys.rows(), &mut kept);
                self.device = Device::Ready;
                self.doubt = None;
                self.is_loaded = true;
                Stepped {
                    word: DiskWord::Loaded(Rows::of(kept)),
                    fate: Some(fate),
                }
            }
            Err(LoadFault::Disk(fault)) => {
                if fault == DiskError::Failed {
                    self.device = Device::Stopped;
                }
                Stepped {
                    word: fault_word(0, fault),
                    fate: None,
                }
            }
            Err(LoadFault::BadStore(slot)) => {
                self.device = Device::Bad(slot);
                Stepped {
                    word: DiskWord::Bad(slot),
                    fate: None,
                }
            }
        }
    }

    // How the rows that were loaded compare with those that were kept.
    fn fate(&self, kept: &mut Vec<(u8, KeyRow)>) -> Fate
        requires table { IsTrue (is_table kept.old.items) }
        requires few { length kept.old.items ≤ 64 }
        requires room { 65 ≤ vec_capacity kept.old }
        ensures fate { result ≡ fate_of (record (shared_of self.now) { keys = kept.old.items }) self.now.store.rows }
        ensures room { 65 ≤ vec_capacity kept.new }
    {
        if !self.is_loaded {
            return Fate::First;
        }
        if same_rows(self.keys.rows(), kept.as_slice()) {
            return Fate::Old;
        }
        if doubt_carried_out(self.doubt.as_ref(), kept, self.keys.rows()) {
            return Fate::New;
        }
        Fate::Other
    }

    /// The slot, which is that of its name, gets the row.
    pub fn keep<D: Disk>(&mut self, disk: &mut D, slot: u8, row: &KeyRow) -> DiskWord
        requires slot { slot_for row.now.name self.old.store.rows ≡ Some slot }
        requires in_step { IsInStep (D.state disk.old) self.old.store.bytes }
        ensures made { MadeChanges (change_to (slot, row.now) ∷ []) result self.old.store self.new.store (D.state disk.old) (D.state disk.new) }
        ensures state { shared_of self.new ≡ after_replacing (shared_of self.old) (change_to (slot, row.now) ∷ []) result }
        ensures queue { KeepsRequests self.old self.new }
    {
        let done = self.keys.put(disk, row);
        let _settled = self.keys.settled();
        match done {
            Ok(()) => DiskWord::Done,
            Err(PutFault::Disk(fault)) => {
                self.doubt = Some(Doubt::of(slot, Some(row.copy())));
                self.stop(0, fault)
            }
            Err(PutFault::TableFull) => unreachable!(),
        }
    }

    /// The slot is emptied.
    pub fn erase<D: Disk>(&mut self, disk: &mut D, slot: u8) -> DiskWord
        requires named { (name : List ℕ) × (slot_of name self.old.store.rows ≡ Some slot) }
        requires in_step { IsInStep (D.state disk.old) self.old.store.bytes }
        ensures made { MadeChanges (erasure slot ∷ []) result self.old.store self.new.store (D.state disk.old) (D.state disk.new) }
        ensures state { shared_of self.new ≡ after_replacing (shared_of self.old) (erasure slot ∷ []) result }
        ensures queue { KeepsRequests self.old self.new }
    {
        names_stand_in_slots();
        let _rows = self.keys.rows();
        let done = self.keys.erase(disk, slot);
        let _settled = self.keys.settled();
        match done {
            Ok(()) => DiskWord::Done,
            Err(fault) => {
                self.doubt = Some(Doubt::of(slot, None));
                self.stop(0, fault)
            }
        }
    }

    /// All occupied slots are emptied, in rising order.
    pub fn erase_all<D: Disk>(&mut self, disk: &mut D) -> DiskWord
        requires on { (D.state disk.old).off ≡ false }
        requires in_step { IsInStep (D.state disk.old) self.old.store.bytes }
        ensures made { MadeChanges (erasures self.old.store.rows) result self.old.store self.new.store (D.state disk.old) (D.state disk.new) }
        ensures state { shared_of self.new ≡ after_replacing (shared_of self.old) (erasures self.old.store.rows) result }
        ensures queue { KeepsRequests self.old self.new }
    {
        let erased = self.keys.erase_all(disk);
        let _settled = self.keys.settled();
        match erased.fault {
            None => erased_word(erased.count),
            Some(fault) => {
                self.doubt = first_doubt(self.keys.rows());
                self.stop(erased.count, fault)
            }
        }
    }

    // The word of a fault after so many slots. A fault that is no cut stops the device.
    fn stop(&mut self, count: u8, fault: DiskError) -> DiskWord
        ensures word { result ≡ word_of count Quiet (Some fault) }
        ensures state { shared_of self.new ≡ stopped_by fault (shared_of self.old) }
        ensures store { self.new.store ≡ self.old.store }
    {
        if fault == DiskError::Failed {
            self.device = Device::Stopped;
        }
        fault_word(count, fault)
    }

    /// The power goes: the device is off, every pending request ends CONNECTIONLOST in order of ids, and the part buffer is
    /// cleared. No PIN is maintained from here on.
    pub fn power_off(&mut self, out: &mut Outs)
        requires room { pending_in_all self.old.requests ≤ out.old.spare }
        ensures state { shared_of self.new ≡ (powers_off (shared_of self.old)).shared }
        ensures store { self.new.store ≡ self.old.store }
        ensures items { out.new.items ≡ out.old.items ++ (powers_off (shared_of self.old)).outs }
    {
        self.device = Device::Off;
        self.part.clear();
        self.is_maintained = false;
        end_requests(
            &mut self.requests,
            &Ending::All,
            &Refusal::ConnectionLost,
            out,
        );
    }

    /// Service listeners hear that all keys are gone.
    pub fn tell_initialized(&self, out: &mut Outs)
        requires { length self.now.sessions ≤ out.old.spare }
        ensures { out.new.items ≡ out.old.items ++ service_events self.now.sessions Initialized }
    {
        announce(&self.sessions, &Event::Initialized, out);
    }
}

// The word of so many slots that were all emptied.
fn erased_word(count: u8) -> DiskWord
    ensures { result ≡ if count == 0 then Quiet else Done }
{
    if count == 0 {
        return DiskWord::Quiet;
    }
    DiskWord::Done
}

// The first of these rows is in doubt: it was to be emptied.
fn first_doubt(rows: &[(u8, KeyRow)]) -> Option<Doubt>
    ensures { result ≡ option_map (λ row. erasure row.0) (lowest_row rows.now) }
{
    match rows.first() {
        Some(row) => Some(Doubt::of(row.0, None)),
        None => None,
    }
}
