// Packed storage: a list of halfwords, and a list of protect bits, sixteen to a halfword from the left.
ghost use Rattle.std.specs.Prelude.{◌≡◌, ◌/◌, ◌<◌, min, cond, length, replicate, IfOk, IfSome};
ghost use Rattle.storage.specs.Meaning.{Guards, Writes, blank, within};
ghost use Rattle.storage.specs.Packed.{bits_guarded, packed_places, values_written};

use crate::Storage;
use std::alloc::{AllocError, Global};
use word::bits::{bit, with_bit};

// Two lists and not one of structs: the machine's packed form lies over two lists of halfwords.
#[derive(Drop)]
pub struct PackedStorage {
    values: Vec<u16>,
    protects: Vec<u16>,
}

impl PackedStorage {
    // A storage over a list of values and a list of protect bits.
    pub fn new(values: Vec<u16>, protects: Vec<u16>) -> Self
        ensures values { result.values ≡ values }
        ensures protects { result.protects ≡ protects }
    {
        PackedStorage { values, protects }
    }

    // A storage of a size, at most 524,288, whose places are zero, unprotected and sound.
    #[tactic(auto, using(crate::proofs::Zeroed::packed_zeroed))]
    pub fn zeroed(heap: Global, size: u32) -> Result<PackedStorage, AllocError>
        ensures { IfOk result (λ s. packed_places s ≡ replicate (min size 524288) blank) }
    {
        let count = size.min(524_288) as usize;
        let values = vec![in heap; 0u16; count]?;
        let protects = vec![in heap; 0u16; count.div_ceil(16)]?;
        Ok(PackedStorage { values, protects })
    }

    // The two lists.
    pub fn into_lists(self) -> (Vec<u16>, Vec<u16>)
        ensures { result ≡ (self.values, self.protects) }
    {
        (self.values, self.protects)
    }

    // The index of a place, or none at or above the size.
    #[tactic(auto, using(crate::proofs::PackedFacts::sizes))]
    fn index_of(&self, place: u32) -> Option<usize>
        ensures answer { result ≡ cond (within (packed_places self.now) place) (Some place) None }
        ensures value { IfSome result (λ index. index < length self.now.values.items) }
        ensures protect { IfSome result (λ index. index / 16 < length self.now.protects.items) }
    {
        let index = place as usize;
        (index < self.size()).then_some(index)
    }
}

impl Storage for PackedStorage {
    ghost meaning = { λ s. packed_places s };

    #[tactic(auto, using(crate::proofs::PackedFacts::sizes))]
    fn size(&self) -> usize {
        let bits = self.protects.len().saturating_mul(16);
        self.values.len().min(bits).min(524_288)
    }

    #[tactic(auto, using(crate::proofs::PackedFacts::found))]
    fn read(&self, place: u32) -> Option<(u16, bool)> {
        let index = self.index_of(place)?;
        Some((self.values[index], true))
    }

    #[tactic(auto, using(crate::proofs::PackedFacts::found))]
    fn protected(&self, place: u32) -> Option<bool> {
        let index = self.index_of(place)?;
        Some(bit(self.protects[index / 16], place))
    }

    #[tactic(auto, using(crate::proofs::PackedFacts::found))]
    fn write(&mut self, place: u32, value: u16) -> bool
        ensures storage { Writes (packed_places self.old) place value result (packed_places self.new) }
        ensures list { self.new.values.items ≡ values_written self.old.values.items self.old.protects.items place value }
        ensures kept { self.new.protects ≡ self.old.protects }
    {
        let Some(index) = self.index_of(place) else {
            return false;
        };
        self.values[index] = value;
        true
    }

    #[tactic(auto, using(crate::proofs::PackedFacts::found))]
    fn guard(&mut self, place: u32, bit: bool) -> bool
        ensures storage { Guards (packed_places self.old) place bit result (packed_places self.new) }
        ensures list { self.new.protects.items ≡ bits_guarded self.old.values.items self.old.protects.items place bit }
        ensures kept { self.new.values ≡ self.old.values }
    {
        let Some(index) = self.index_of(place) else {
            return false;
        };
        let halfword = self.protects[index / 16];
        self.protects[index / 16] = with_bit(halfword, place, bit);
        true
    }
}
