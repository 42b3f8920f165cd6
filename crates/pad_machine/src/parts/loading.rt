// RESET, Boot and Off. No call takes memory.
ghost use Rattle.std.specs.Prelude.{◌≡◌, ◌≤◌, ◌+◌, None, false, length, max, true};
ghost use Rattle.flat_machine.specs.DiskFacts.{IsKeptStore, KeepsStore, starts, stays, stops};
ghost use Rattle.flat_machine.specs.FinishSteps.{device_reply, resets};
ghost use Rattle.flat_machine.specs.Power.{Loading, Nothing, loads, powers_off, word_fate};
ghost use Rattle.flat_machine.specs.State.{is_off};
ghost use Rattle.pad_machine.specs.Does.{Does};
ghost use Rattle.pad_machine.specs.Memory.{pending_in_all};
ghost use Rattle.pad_machine.specs.Prepares.{IsCopy, IsReset};
ghost use Rattle.pad_machine.specs.Stands.{shared_of};
ghost use Rattle.pad_steps.specs.declared.steps.DiskWord.TheVariants.{Quiet};

use super::{Parts, quiet};
use crate::pad::Stepped;
use disk_core::PowerDisk;
use flat_machine::laws::devices::device_steps_are_on_disk;
use flat_machine::types::{Device, Owner};
use key_attributes::KeyRow;
use pad_steps::{Answer, DiskWord, Outs, Refusal, Reply};
use pin_blocks::PinWork;

impl<W: PinWork + Drop> Parts<W> {
    /// RESET: the held PIN and the part buffer are cleared, no PIN is maintained, and the store is loaded.
    pub(super) fn reset<D: PowerDisk>(
        &mut self,
        disk: &mut D,
        owner: Owner,
        kept: Vec<(u8, KeyRow)>,
        out: &mut Outs,
    ) -> Stepped
        requires room { max (length self.old.common.sessions + 1) (pending_in_all self.old.common.requests) ≤ out.old.spare }
        requires reset { IsReset self.old.common owner kept }
        requires kept { IsKeptStore (shared_of self.old.common) self.old.common.store (D.state disk.old) }
        ensures does { Does self.old self.new out.old out.new (λ shared held. resets owner result.word shared) }
        ensures device { KeepsStore (shared_of self.old.common) (shared_of self.new.common) stays Loading
            result.word self.new.common.store (D.state disk.old) (D.state disk.new) }
        ensures fate { result.fate ≡ word_fate (shared_of self.old.common) result.word }
    {
        device_steps_are_on_disk::<D>();
        self.held.clear();
        self.shared.clear_part();
        self.shared.maintain(false);
        let stepped = self.shared.load(disk, kept);
        match stepped.word {
            DiskWord::Cut(_) => self.power_off(out),
            _ => {
                let device = self.shared.device();
                self.end(owner, device_reply(device), device_reply(device), out);
            }
        }
        stepped
    }

    /// Boot: the disk is started, and the store is loaded.
    pub(super) fn boot<D: PowerDisk>(
        &mut self,
        disk: &mut D,
        kept: Vec<(u8, KeyRow)>,
        out: &mut Outs,
    ) -> Stepped
        requires room { pending_in_all self.old.common.requests ≤ out.old.spare }
        requires off { is_off self.old.common.device ≡ true }
        requires copy { IsCopy self.old.common.store.rows kept }
        requires kept { IsKeptStore (shared_of self.old.common) self.old.common.store (D.state disk.old) }
        ensures does { Does self.old self.new out.old out.new (λ shared held. loads shared result.word) }
        ensures device { KeepsStore (shared_of self.old.common) (shared_of self.new.common) starts Loading
            result.word self.new.common.store (D.state disk.old) (D.state disk.new) }
        ensures fate { result.fate ≡ word_fate (shared_of self.old.common) result.word }
    {
        device_steps_are_on_disk::<D>();
        disk.on();
        let stepped = self.shared.load(disk, kept);
        if matches!(stepped.word, DiskWord::Cut(_)) {
            self.power_off(out);
        }
        stepped
    }

    /// Off: the disk is stopped, and the power goes.
    pub(super) fn stop<D: PowerDisk>(&mut self, disk: &mut D, out: &mut Outs) -> Stepped
        requires room { pending_in_all self.old.common.requests ≤ out.old.spare }
        requires on { is_off self.old.common.device ≡ false }
        requires kept { IsKeptStore (shared_of self.old.common) self.old.common.store (D.state disk.old) }
        ensures does { Does self.old self.new out.old out.new (λ shared held. powers_off shared) }
        ensures device { KeepsStore (shared_of self.old.common) (shared_of self.new.common) stops Nothing
            result.word self.new.common.store (D.state disk.old) (D.state disk.new) }
        ensures word { result.word ≡ Quiet }
        ensures fate { result.fate ≡ None }
    {
        device_steps_are_on_disk::<D>();
        disk.off();
        self.power_off(out);
        quiet()
    }
}

// The reply of RESET, by the device after it.
fn device_reply(device: Device) -> Reply
    ensures { result ≡ device_reply device }
{
    match device {
        Device::Off | Device::Ready => Reply::Ok(Answer::Done),
        Device::Stopped => Reply::No(Refusal::HardwareError),
        Device::Bad(slot) => Reply::No(Refusal::BadStore(slot)),
    }
}
