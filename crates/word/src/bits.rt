// Single bits of a halfword, counted from 0 at the left; a bit's number is taken modulo 16.
ghost use Rattle.std.specs.Prelude.{◌≡◌};
ghost use Rattle.word.specs.Bits.{bit_of, from_right, number_with_bit};

// The bit with a number.
pub fn bit(halfword: u16, number: u32) -> bool
    ensures { result ≡ bit_of halfword (from_right number) }
{
    halfword >> (15 - number % 16) & 1 == 1
}

// The halfword with that bit put, and the other bits kept.
#[tactic(auto, using(crate::proofs::Bitwork::put))]
pub fn with_bit(halfword: u16, number: u32, bit: bool) -> u16
    ensures { result ≡ number_with_bit halfword (from_right number) bit }
{
    let mask = 1 << (15 - number % 16);
    if bit {
        halfword | mask
    } else {
        halfword & !mask
    }
}
