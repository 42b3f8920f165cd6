// The state as one number, and in outline.
ghost use Rattle.std.specs.Prelude.{◌≡◌, ◌≤◌};
ghost use Rattle.flat_machine.specs.Machine.{holder_number, one_if, work_number};
ghost use Rattle.flat_machine.specs.RequestSteps.{status_view};
ghost use Rattle.flat_machine.specs.State.{device_number};
ghost use Rattle.pad_machine.specs.Stands.{IsSound, shared_of, status_with};
ghost use Rattle.std.specs.Option.{option_copied};

use super::Shared;
use flat_machine::types::Device;
use pad_steps::{StatusView, Step};
use pad_words::Session;
use pin_blocks::PinWork;

impl<W: PinWork + Drop> Shared<W> {
    /// The state as one number, where a PIN is held or not.
    pub fn status(&self, has_pin: bool) -> u64
        requires { IsSound W.rules (shared_of self.now) }
        ensures { result ≡ status_with (shared_of self.now) has_pin }
    {
        u64::from(device_number(self.device))
            + 4 * one_if(self.running_entry().is_some())
            + 8 * one_if(has_pin)
            + 16 * work_number(self.next_work().as_ref())
            + 64 * holder_number(self.line.holder())
            + 2048 * u64::from(self.requests.ended())
    }

    /// The state in outline, as it is told to the session, where a PIN is held or not. Keys are counted while the device is
    /// ready.
    pub fn status_view(&self, has_pin: bool, session: Session) -> StatusView
        requires { IsSound W.rules (shared_of self.now) }
        ensures { result ≡ status_view (shared_of self.now) has_pin session }
    {
        let keys = if self.device == Device::Ready {
            self.keys.rows().len() as u8
        } else {
            0
        };
        StatusView {
            state: device_number(self.device),
            keys,
            holder: self.line.holder(),
            entry: self.running_entry().is_some(),
            pin: has_pin,
            pending: self.requests.pending(session),
        }
    }
}

// The device as a number: off 0, ready 1, stopped 2, bad 3.
fn device_number(device: Device) -> u8
    ensures number { result ≡ device_number device }
    ensures small { result ≤ 3 }
{
    match device {
        Device::Off => 0,
        Device::Ready => 1,
        Device::Stopped => 2,
        Device::Bad(_) => 3,
    }
}

// 1 for yes, 0 for no.
fn one_if(test: bool) -> u64
    ensures number { result ≡ one_if test }
    ensures small { result ≤ 1 }
{
    u64::from(test)
}

// The work that is due as a number: none 0, Begin 1, Finish 2.
fn work_number(due: Option<&Step>) -> u64
    ensures number { result ≡ work_number (option_copied due.entry) }
    ensures small { result ≤ 2 }
{
    match due {
        None => 0,
        Some(Step::Begin) => 1,
        Some(_) => 2,
    }
}

// The session that holds the lock as a number, 0 for none.
fn holder_number(holder: Option<Session>) -> u64
    ensures number { result ≡ holder_number holder }
    ensures small { result ≤ 16 }
{
    match holder {
        None => 0,
        Some(session) => u64::from(session.get()),
    }
}
