// Halfwords and addresses, as they are printed: hexadecimal, in upper case.
ghost use Rattle.std.specs.Prelude.{Some};
ghost use Rattle.listing.specs.Numbers.{halfword_text, address_text};

use std::fmt;

// A halfword, printed as four digits.
#[derive(Clone, Copy, PartialEq, Eq, Debug)]
pub struct Halfword(pub u16);

impl fmt::Display for Halfword {
    ghost output = { λ x. Some (halfword_text x.0) };

    #[tactic(auto, using(crate::proofs::Hex::halfword_digits))]
    fn fmt<W: fmt::Write>(&self, f: &mut fmt::Formatter<W>) -> fmt::Result {
        let Halfword(value) = *self;
        write!(f, "{value:04X}")
    }
}

// An address, printed as five digits, or as more where it needs them.
#[derive(Clone, Copy, PartialEq, Eq, Debug)]
pub struct Address(pub u32);

impl fmt::Display for Address {
    ghost output = { λ x. Some (address_text x.0) };

    #[tactic(auto, using(crate::proofs::Hex::address_digits))]
    fn fmt<W: fmt::Write>(&self, f: &mut fmt::Formatter<W>) -> fmt::Result {
        let Address(place) = *self;
        write!(f, "{place:05X}")
    }
}
