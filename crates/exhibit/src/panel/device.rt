// What the panel does.
ghost use Rattle.exhibit.specs.Panels.{panel};
ghost use Rattle.exhibit.specs.declared.panel.Panel.{Panel};

use super::Panel;
use host::device::Device;

impl Device for Panel {
    ghost states = { Panel };

    ghost state = { λ d. d };

    ghost machine = { panel };

    fn ready(&self, command: u32) -> bool {
        command % 256 == u32::from(self.address)
    }

    fn input(&mut self, _command: u32) -> u32 {
        self.switches
    }

    fn output(&mut self, _command: u32, word: u32) {
        self.lamps = word;
    }
}
