// The numbers of the script: digits with no sign in front, as many as there are.
ghost use Rattle.std.specs.Prelude.{◌≡◌, ℕ, ◌+◌, ◌^◌, ◌≤◌, nat_le};
ghost use Rattle.std.specs.Str.Parse.{without_leading_plus};
ghost use Rattle.script.specs.Numbers.{number_by};

// A type of numbers that the script writes.
pub trait Numeral: Sized {
    // Its values lie below this.
    ghost limit: { ℕ };

    // The number with a value.
    ghost from_value: { ℕ → Self };

    // What the library reads: a plus sign may stand in front.
    fn read(word: &str, radix: u32) -> Option<Self>
        requires lower_bound { 2 ≤ radix }
        requires upper_bound { radix ≤ 36 }
        ensures { result ≡ number_by from_value radix limit (without_leading_plus word.now) };
}

// The library reads each type by a function of its own, so there is an impl for each.
impl Numeral for u16 {
    ghost limit = { 2 ^ 16 };

    ghost from_value = { λ n. n };

    fn read(word: &str, radix: u32) -> Option<u16> {
        u16::from_str_radix(word, radix).ok()
    }
}

impl Numeral for u32 {
    ghost limit = { 2 ^ 32 };

    ghost from_value = { λ n. n };

    fn read(word: &str, radix: u32) -> Option<u32> {
        u32::from_str_radix(word, radix).ok()
    }
}

// The number that a word writes in a radix, if it writes one of the type.
pub fn number<T: Numeral>(word: &str, radix: u32) -> Option<T>
    requires lower_bound { 2 ≤ radix }
    requires upper_bound { radix ≤ 36 }
    ensures { result ≡ number_by T.from_value radix T.limit word.now }
{
    if word.starts_with('+') {
        return None;
    }
    T::read(word, radix)
}

// Whether a stretch of places ends at address FFFFFFFF or below.
pub fn fits(address: u32, count: usize) -> bool
    ensures { result ≡ nat_le (address + count) 4294967296 }
{
    count <= 4294967296 - address as usize
}
