// Cell storage: one 32-bit number for each place, with a parity bit.
ghost use Rattle.std.specs.Prelude.{◌≡◌, ◌/◌, min, true, false, replicate, IfOk};
ghost use Rattle.storage.specs.Cells.{cell_guarded, cell_of, cell_places, cell_written, cells_guarded, cells_written};
ghost use Rattle.storage.specs.Meaning.{Guards, Writes, blank, place_with_protect, place_with_value};

use crate::Storage;
use crate::elements::{self, Element};
use std::alloc::{AllocError, Global};

// The cell with a value put. The parity bit makes the count of ones odd; the protect bit and the 14 bits above are kept.
#[tactic(auto, using(crate::proofs::CellBits::parity_lt))]
fn with_value(cell: u32, value: u16) -> u32
    ensures answer { result ≡ cell_written cell value }
    ensures upper { result / 262144 ≡ cell / 262144 }
{
    let parity = 1 - value.count_ones() % 2;
    (cell >> 17 << 1 | parity) << 16 | u32::from(value)
}

// A cell: the value, above it the parity bit and the protect bit, and 14 bits that are kept.
impl Element for u32 {
    ghost place = { cell_of };

    ghost with_value = { cell_written };

    ghost with_protect = { cell_guarded };

    fn value(&self) -> u16 {
        (*self & 0xffff) as u16
    }

    // Value and parity bit together hold an odd count of ones.
    fn is_sound(&self) -> bool {
        (*self & 0x1_ffff).count_ones() % 2 == 1
    }

    fn is_protected(&self) -> bool {
        *self >> 17 & 1 == 1
    }

    #[tactic(auto, using(crate::proofs::CellBits::value_place))]
    fn put_value(&mut self, value: u16)
        ensures element { self.new ≡ cell_written self.old value }
        ensures after { cell_of self.new ≡ place_with_value (cell_of self.old) value }
        ensures upper { self.new / 262144 ≡ self.old / 262144 }
    {
        *self = with_value(*self, value);
    }

    // All but the protect bit is kept.
    fn put_protect(&mut self, bit: bool)
        ensures element { self.new ≡ cell_guarded self.old bit }
        ensures after { cell_of self.new ≡ place_with_protect (cell_of self.old) bit }
        ensures upper { self.new / 262144 ≡ self.old / 262144 }
    {
        *self = (*self >> 18 << 1 | u32::from(bit)) << 17 | *self & 0x1_ffff;
    }
}

// The marks of cells 1 and 3: one 1 is sound, and two are not.
#[tactic(auto, using(crate::proofs::CellBits::mark_of_1, crate::proofs::CellBits::mark_of_3))]
pub fn example_marks() -> (bool, bool)
    ensures marks { result ≡ ((cell_of 1).sound, (cell_of 3).sound) }
    ensures answer { result ≡ (true, false) }
{
    (1u32.is_sound(), 3u32.is_sound())
}

#[derive(Drop)]
pub struct CellStorage {
    cells: Vec<u32>,
}

impl CellStorage {
    // A storage over a list of cells.
    pub fn new(cells: Vec<u32>) -> Self
        ensures { result.cells ≡ cells }
    {
        CellStorage { cells }
    }

    // A storage of a size, at most 524,288, whose places are zero, unprotected and sound. The parity bit of a zero is one.
    #[tactic(auto, using(crate::proofs::Zeroed::cells_zeroed))]
    pub fn zeroed(heap: Global, size: u32) -> Result<CellStorage, AllocError>
        ensures { IfOk result (λ s. cell_places s ≡ replicate (min size 524288) blank) }
    {
        let count = size.min(524_288) as usize;
        let cells = vec![in heap; 0x1_0000u32; count]?;
        Ok(CellStorage { cells })
    }

    // The list of cells.
    pub fn into_cells(self) -> Vec<u32>
        ensures { result ≡ self.cells }
    {
        self.cells
    }
}

impl Storage for CellStorage {
    ghost meaning = { λ s. cell_places s };

    fn size(&self) -> usize {
        elements::size(&self.cells)
    }

    fn read(&self, place: u32) -> Option<(u16, bool)> {
        elements::read(&self.cells, place)
    }

    fn protected(&self, place: u32) -> Option<bool> {
        elements::protected(&self.cells, place)
    }

    fn write(&mut self, place: u32, value: u16) -> bool
        ensures storage { Writes (cell_places self.old) place value result (cell_places self.new) }
        ensures list { self.new.cells.items ≡ cells_written self.old.cells.items place value }
    {
        elements::write(&mut self.cells, place, value)
    }

    fn guard(&mut self, place: u32, bit: bool) -> bool
        ensures storage { Guards (cell_places self.old) place bit result (cell_places self.new) }
        ensures list { self.new.cells.items ≡ cells_guarded self.old.cells.items place bit }
    {
        elements::guard(&mut self.cells, place, bit)
    }
}
