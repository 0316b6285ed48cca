// The commands of the script.
ghost use Rattle.std.specs.Iterator.{AlwaysYields};
ghost use Rattle.script.specs.Stretches.{addresses_of};

use listing::line::Kind;
use std::iter::Take;
use std::ops::RangeInclusive;

// A stretch of places: an address, and how many places there are from it on.
#[derive(Clone, Copy, PartialEq, Eq, Debug)]
pub struct Stretch {
    pub address: u32,
    pub count: u32,
}

// An entry of the code sheet: a key, and an operation's number.
#[derive(Clone, Copy, PartialEq, Eq, Debug)]
pub struct Entry {
    pub key: u16,
    pub number: u16,
}

impl Stretch {
    // Its addresses in order, up to address FFFFFFFF.
    #[tactic(auto, using(crate::proofs::Addresses::stretch_gives))]
    pub fn addresses(self) -> Take<RangeInclusive<u32>>
        ensures { AlwaysYields ⟦<Take<RangeInclusive<u32>> as Iterator>⟧.next_gives (λ x. x) result (addresses_of self) }
    {
        (self.address..=u32::MAX).take(self.count as usize)
    }
}

// What one line says.
#[derive(PartialEq, Eq, Debug, Drop)]
pub enum Command {
    // Nothing, or only a comment.
    Blank,
    // Make a storage of a kind, with a number of places.
    Storage { kind: Kind, size: u32 },
    // Fill raw cells, from an address on.
    Cell { address: u32, cells: Vec<u32> },
    // Take these halfwords as the code sheet.
    Sheet(Vec<u16>),
    // Append an entry to the code sheet.
    Entry(Entry),
    // Perform the script in a file.
    Do(String),
    // Load the code sheet.
    Load,
    // Deposit values, from an address on.
    Deposit { address: u32, values: Vec<u16> },
    // Set the protect bit of a stretch of places.
    Protect { stretch: Stretch, bit: bool },
    // Read a stretch of places.
    Examine(Stretch),
    // Show a stretch of places.
    View(Stretch),
}
