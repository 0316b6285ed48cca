// A storage over memory that the exhibit lends, so that its display can read the places between two calls.
ghost use Rattle.std.specs.Prelude.{◌≡◌};
ghost use Rattle.exhibit.specs.Lent.{lent_places, slot_place, slot_with_protect, slot_with_value};

use storage::Storage;
use storage::elements::{self, Element};

// What the exhibit keeps for one place.
#[derive(Clone, Copy, PartialEq, Eq, Debug)]
pub struct Slot {
    pub value: u16,
    pub protected: bool,
    pub sound: bool,
}

impl Element for Slot {
    ghost place = { slot_place };

    ghost with_value = { slot_with_value };

    ghost with_protect = { slot_with_protect };

    fn value(&self) -> u16 {
        self.value
    }

    fn is_sound(&self) -> bool {
        self.sound
    }

    fn is_protected(&self) -> bool {
        self.protected
    }

    fn put_value(&mut self, value: u16) {
        self.value = value;
        self.sound = true;
    }

    fn put_protect(&mut self, bit: bool) {
        self.protected = bit;
    }
}

#[derive(Drop)]
pub struct LentStorage<'a> {
    slots: &'a mut [Slot],
}

impl<'a> LentStorage<'a> {
    // A storage over these slots: those past 524,288 are not used.
    pub fn new(slots: &'a mut [Slot]) -> LentStorage<'a>
        ensures { result.slots.now ≡ slots.old }
    {
        LentStorage { slots }
    }
}

impl Storage for LentStorage<'_> {
    ghost meaning = { λ s. lent_places s.slots.now };

    fn size(&self) -> usize {
        elements::size(self.slots)
    }

    fn read(&self, place: u32) -> Option<(u16, bool)> {
        elements::read(self.slots, place)
    }

    fn protected(&self, place: u32) -> Option<bool> {
        elements::protected(self.slots, place)
    }

    fn write(&mut self, place: u32, value: u16) -> bool {
        elements::write(self.slots, place, value)
    }

    fn guard(&mut self, place: u32, bit: bool) -> bool {
        elements::guard(self.slots, place, bit)
    }
}
