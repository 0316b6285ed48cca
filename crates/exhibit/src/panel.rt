// A panel of switches and lamps at one address: a host that needs only its own behaviour.
ghost use Rattle.std.specs.Prelude.{◌≡◌};

mod device;

use host::device::DeviceHost;

// It takes the commands whose low eight bits are its address. An input command reads the switches, an output command
// sets the lamps.
#[derive(PartialEq, Eq, Debug, Drop)]
pub struct Panel {
    address: u8,
    switches: u32,
    lamps: u32,
}

pub type PanelHost = DeviceHost<Panel>;

impl Panel {
    // A panel with its lamps out.
    pub fn new(address: u8, switches: u32) -> Panel
        ensures { result ≡ record { address = address; switches = switches; lamps = 0 } }
    {
        Panel {
            address,
            switches,
            lamps: 0,
        }
    }

    // The lamps, as the last output command set them.
    pub fn lamps(&self) -> u32
        ensures { result ≡ self.now.lamps }
    {
        self.lamps
    }
}
