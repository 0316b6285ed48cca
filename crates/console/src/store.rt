// The storage of a session, of either kind.
ghost use Rattle.std.specs.Prelude.{◌≡◌};
ghost use Rattle.console.specs.Store.{meaning_of};

mod setup;

use storage::Storage;
use storage::cells::CellStorage;
use storage::packed::PackedStorage;

// The kinds are two, and a `cell` line is for one of them alone: a boxed storage would not tell which it is.
#[derive(Drop)]
pub enum Store {
    Cells(CellStorage),
    Packed(PackedStorage),
}

impl Storage for Store {
    ghost meaning = { λ s. meaning_of s };

    fn size(&self) -> usize {
        match self {
            Store::Cells(s) => s.size(),
            Store::Packed(s) => s.size(),
        }
    }

    fn read(&self, place: u32) -> Option<(u16, bool)> {
        match self {
            Store::Cells(s) => s.read(place),
            Store::Packed(s) => s.read(place),
        }
    }

    fn protected(&self, place: u32) -> Option<bool> {
        match self {
            Store::Cells(s) => s.protected(place),
            Store::Packed(s) => s.protected(place),
        }
    }

    fn write(&mut self, place: u32, value: u16) -> bool {
        match self {
            Store::Cells(s) => s.write(place, value),
            Store::Packed(s) => s.write(place, value),
        }
    }

    fn guard(&mut self, place: u32, bit: bool) -> bool {
        match self {
            Store::Cells(s) => s.guard(place, bit),
            Store::Packed(s) => s.guard(place, bit),
        }
    }
}
