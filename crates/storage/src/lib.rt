// Storage: halfwords, each with a protect bit and a mark, sound or unsound.

#![tactic(auto)]

ghost use Rattle.std.specs.Prelude.{◌≡◌, ◌≤◌, List, length};
ghost use Rattle.storage.specs.Meaning.{Guards, Place, Writes, protected_of, read_of};

pub mod cells;
pub mod elements;
pub mod packed;

// What every storage shows. Its meaning is the list of its places, and the length of that list its size.
// The rules of the machine fix the form of the answers: a halfword with its mark, a protect bit, yes or no.
pub trait Storage {
    ghost meaning: { Self → List Place };

    // The size, which is at most 524,288.
    fn size(&self) -> usize
        ensures answer { result ≡ length (meaning self.now) }
        ensures few { result ≤ 524288 };

    // The halfword and the mark at a place (true for sound), or none at or above the size.
    fn read(&self, place: u32) -> Option<(u16, bool)>
        ensures { result ≡ read_of (meaning self.now) place };

    // The protect bit at a place, or none at or above the size.
    fn protected(&self, place: u32) -> Option<bool>
        ensures { result ≡ protected_of (meaning self.now) place };

    // Puts a halfword, makes the place sound and keeps its protect bit; no at or above the size.
    fn write(&mut self, place: u32, value: u16) -> bool
        ensures { Writes (meaning self.old) place value result (meaning self.new) };

    // Sets the protect bit and keeps halfword and mark; no at or above the size.
    fn guard(&mut self, place: u32, bit: bool) -> bool
        ensures { Guards (meaning self.old) place bit result (meaning self.new) };
}
