// A device, and the host over it. A host of one's own needs only the device's own behaviour.
ghost use Rattle.std.specs.Prelude.{◌≡◌, Some};
ghost use Rattle.host.specs.Devices.{Input, Machine, Output, behaves, device_meaning};

mod state;

use crate::{Host, Seal, is_input};

// What a device does. It is asked for a word, or given one, only for a command that it was ready for.
pub trait Device {
    // The states that it may be in.
    ghost states: { Type 0 };

    // The state that it is in.
    ghost state: { Self → states };

    // What each state offers, and the state after a word has moved.
    ghost machine: { Machine states };

    // Whether it would take a command.
    fn ready(&self, command: u32) -> bool
        ensures { result ≡ (machine.offer (state self.now)).takes command };

    // Moves a word out, for an input command.
    fn input(&mut self, command: u32) -> u32
        ensures answer { result ≡ (machine.offer (state self.old)).word command }
        ensures after { state self.new ≡ machine.next (state self.old) (Input command) };

    // Moves a word in, for an output command.
    fn output(&mut self, command: u32, word: u32)
        ensures after { state self.new ≡ machine.next (state self.old) (Output command word) };
}

// A host over a device: its open command and the latest word given with its command.
#[derive(Drop)]
pub struct DeviceHost<D> {
    current: Option<u32>,
    latest: Option<(u32, u32)>,
    device: D,
}

impl<D: Device> DeviceHost<D> {
    // Keeps a word as the latest given, and moves it into the device.
    fn keep(&mut self, command: u32, word: u32)
        ensures current { self.new.current ≡ self.old.current }
        ensures latest { self.new.latest ≡ Some (command, word) }
        ensures device { D.state self.new.device ≡ D.machine.next (D.state self.old.device) (Output command word) }
    {
        self.latest = Some((command, word));
        self.device.output(command, word);
    }
}

impl<D: Device> Host for DeviceHost<D> {
    ghost meaning = { λ h. device_meaning (λ d. behaves D.machine (D.state d)) h };

    fn accept(&mut self, _seal: &Seal, command: u32) -> bool {
        let accepted = self.current.is_none() && self.device.ready(command);
        if accepted {
            self.current = Some(command);
        }
        accepted
    }

    fn close_by_take(&mut self, _seal: &Seal) -> u32 {
        match self.current.take() {
            Some(command) if is_input(command) => self.device.input(command),
            _ => 0,
        }
    }

    fn close_by_give(&mut self, _seal: &Seal, word: u32) {
        if let Some(command) = self.current.take()
            && !is_input(command)
        {
            self.keep(command, word);
        }
    }

    fn close_by_clear(&mut self, _seal: &Seal) {
        self.current = None;
    }
}
