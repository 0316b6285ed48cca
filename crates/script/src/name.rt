// The words that stand for a value: numbers of operations, and protect bits.
ghost use Rattle.std.specs.Prelude.{◌≡◌};
ghost use Rattle.script.specs.Names.{number_of_operation, bit_named};

use crate::number::number;
use sheet::operation::Operation;

// The number of an operation: of its name, or as it is written.
pub fn operation_number(word: &str) -> Option<u16>
    ensures { result ≡ number_of_operation word.now }
{
    match word.parse::<Operation>() {
        Ok(operation) => Some(u16::from(operation)),
        Err(_unknown) => number(word, 10),
    }
}

// The protect bit that a word is, if it is one. It is the digit 0 or 1, while the library reads a `bool` as true or false.
pub fn bit(word: &str) -> Option<bool>
    ensures { result ≡ bit_named word.now }
{
    match word {
        "0" => Some(false),
        "1" => Some(true),
        _ => None,
    }
}
