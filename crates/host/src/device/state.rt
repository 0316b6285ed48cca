// A host over a device, made and looked at.
ghost use Rattle.std.specs.Prelude.{◌≡◌, None};

use super::{Device, DeviceHost};

impl<D: Device> DeviceHost<D> {
    // An idle host that was given no word yet.
    pub fn new(device: D) -> DeviceHost<D>
        ensures { result ≡ record { current = None; latest = None; device = device } }
    {
        DeviceHost {
            current: None,
            latest: None,
            device,
        }
    }

    // The open command.
    pub fn current(&self) -> Option<u32>
        ensures { result ≡ self.now.current }
    {
        self.current
    }

    // The latest word given, after its command.
    pub fn latest(&self) -> Option<(u32, u32)>
        ensures { result ≡ self.now.latest }
    {
        self.latest
    }

    // The device.
    pub fn device(&self) -> &D
        ensures { result.now ≡ self.now.device }
    {
        &self.device
    }
}
