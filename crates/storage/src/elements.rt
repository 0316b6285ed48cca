// A list with one element for each place, whoever owns it: at most 524,288 are places, the elements past them are not used.
ghost use Rattle.std.specs.Prelude.{◌≡◌, ℕ, ◌<◌, ◌≤◌, Bool, cond, length, IfSome};
ghost use Rattle.storage.specs.Meaning.{Guards, Place, Writes, changed, place_with_protect, place_with_value, places_of, protected_of, read_of, within};

// What is kept for one place.
pub trait Element {
    // The place that it stands for, and what it is after a halfword or a protect bit is put.
    ghost place: { Self → Place };

    ghost with_value: { Self → ℕ → Self };

    ghost with_protect: { Self → Bool → Self };

    // The halfword of the place, its mark (true for sound), and its protect bit.
    fn value(&self) -> u16
        ensures { result ≡ (place self.now).value };

    fn is_sound(&self) -> bool
        ensures { result ≡ (place self.now).sound };

    fn is_protected(&self) -> bool
        ensures { result ≡ (place self.now).protected };

    // Puts a halfword: the place is sound then, and keeps its protect bit.
    fn put_value(&mut self, value: u16)
        ensures element { self.new ≡ with_value self.old value }
        ensures after { place self.new ≡ place_with_value (place self.old) value };

    // Puts the protect bit: the place keeps halfword and mark.
    fn put_protect(&mut self, bit: bool)
        ensures element { self.new ≡ with_protect self.old bit }
        ensures after { place self.new ≡ place_with_protect (place self.old) bit };
}

// The count of places.
#[tactic(auto, using(crate::proofs::PlaceFacts::sizes))]
pub fn size<T: Element>(elements: &[T]) -> usize
    ensures answer { result ≡ length (places_of T.place elements.now) }
    ensures few { result ≤ 524288 }
{
    elements.len().min(524_288)
}

// The index of a place, or none at or above the size.
#[tactic(auto, using(crate::proofs::PlaceFacts::sizes))]
fn index_of<T: Element>(elements: &[T], place: u32) -> Option<usize>
    ensures answer { result ≡ cond (within (places_of T.place elements.now) place) (Some place) None }
    ensures inside { IfSome result (λ index. index < length elements.now) }
{
    let index = place as usize;
    (index < size(elements)).then_some(index)
}

// The halfword and the mark at a place.
#[tactic(auto, using(crate::proofs::PlaceFacts::found))]
pub fn read<T: Element>(elements: &[T], place: u32) -> Option<(u16, bool)>
    ensures { result ≡ read_of (places_of T.place elements.now) place }
{
    let index = index_of(elements, place)?;
    let element = &elements[index];
    Some((element.value(), element.is_sound()))
}

// The protect bit at a place.
#[tactic(auto, using(crate::proofs::PlaceFacts::found))]
pub fn protected<T: Element>(elements: &[T], place: u32) -> Option<bool>
    ensures { result ≡ protected_of (places_of T.place elements.now) place }
{
    let index = index_of(elements, place)?;
    Some(elements[index].is_protected())
}

// Puts a halfword into a place. A guard differs in the one call; a closure for it would need a contract as long as either.
#[tactic(auto, using(crate::proofs::PlaceFacts::found))]
pub fn write<T: Element>(elements: &mut [T], place: u32, value: u16) -> bool
    ensures storage { Writes (places_of T.place elements.old) place value result (places_of T.place elements.new) }
    ensures list { elements.new ≡ changed (λ x. T.with_value x value) elements.old place }
{
    let Some(index) = index_of(elements, place) else {
        return false;
    };
    elements[index].put_value(value);
    true
}

// Puts the protect bit of a place.
#[tactic(auto, using(crate::proofs::PlaceFacts::found))]
pub fn guard<T: Element>(elements: &mut [T], place: u32, bit: bool) -> bool
    ensures storage { Guards (places_of T.place elements.old) place bit result (places_of T.place elements.new) }
    ensures list { elements.new ≡ changed (λ x. T.with_protect x bit) elements.old place }
{
    let Some(index) = index_of(elements, place) else {
        return false;
    };
    elements[index].put_protect(bit);
    true
}
