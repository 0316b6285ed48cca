// The lines that the program prints.
ghost use Rattle.std.specs.Prelude.{◌≡◌, cond, Some, codes};
ghost use Rattle.std.specs.Result.{result_ok};
ghost use Rattle.listing.specs.Lines.{kind_named, kind_text, line_text};

use crate::answer::Answer;
use crate::number::{Address, Halfword};
use std::error::Error;
use std::fmt;
use std::str::FromStr;

// The kind of a storage.
#[derive(Clone, Copy, PartialEq, Eq, Debug)]
pub enum Kind {
    Cells,
    Packed,
}

// A word that names no kind of storage.
#[derive(Clone, Copy, PartialEq, Eq, Debug)]
pub struct UnknownKind;

// One line of output.
#[derive(Clone, Copy)]
pub enum Line {
    // The storage was made, with a number of places.
    Storage(Kind, u32),
    // The code sheet was loaded.
    Load(Answer),
    // A value was deposited at an address.
    Deposit(u32, u16, Answer),
    // The protect bit of an address was set.
    Protect(u32, bool, Answer),
    // The value at an address was read.
    Examine(u32, Answer),
    // What a place holds.
    Place {
        address: u32,
        value: u16,
        protected: bool,
        sound: bool,
    },
    // An address that the storage does not have.
    Outside(u32),
}

impl fmt::Display for Kind {
    ghost output = { λ x. Some (kind_text x) };

    fn fmt<W: fmt::Write>(&self, f: &mut fmt::Formatter<W>) -> fmt::Result {
        f.write_str(match self {
            Kind::Cells => "cells",
            Kind::Packed => "packed",
        })
    }
}

// By hand, since the text that a derive prints is in no clause.
impl fmt::Display for UnknownKind {
    ghost output = { λ _. Some (codes "no such kind of storage") };

    fn fmt<W: fmt::Write>(&self, f: &mut fmt::Formatter<W>) -> fmt::Result {
        f.write_str("no such kind of storage")
    }
}

impl Error for UnknownKind {}

// The kind of storage with a name.
impl FromStr for Kind {
    type Err = UnknownKind;

    ghost from_str_gives = { λ bs r. result_ok r ≡ kind_named bs };

    fn from_str(name: &str) -> Result<Kind, UnknownKind> {
        match name {
            "cells" => Ok(Kind::Cells),
            "packed" => Ok(Kind::Packed),
            _ => Err(UnknownKind),
        }
    }
}

// One of two words.
fn word(flag: bool, yes: &'static str, no: &'static str) -> &'static str
    ensures { result.now ≡ cond flag yes.now no.now }
{
    if flag { yes } else { no }
}

impl fmt::Display for Line {
    ghost output = { λ x. Some (line_text x) };

    fn fmt<W: fmt::Write>(&self, f: &mut fmt::Formatter<W>) -> fmt::Result {
        match *self {
            Line::Storage(kind, size) => write!(f, "storage {kind} {size}"),
            Line::Load(answer) => write!(f, "load: {answer}"),
            Line::Deposit(address, value, answer) => {
                write!(
                    f,
                    "deposit {} {}: {answer}",
                    Address(address),
                    Halfword(value)
                )
            }
            Line::Protect(address, bit, answer) => {
                write!(
                    f,
                    "protect {} {}: {answer}",
                    Address(address),
                    word(bit, "1", "0")
                )
            }
            Line::Examine(address, answer) => write!(f, "examine {}: {answer}", Address(address)),
            Line::Place {
                address,
                value,
                protected,
                sound,
            } => {
                let guard = word(protected, "protected", "open");
                let state = word(sound, "sound", "unsound");
                write!(
                    f,
                    "{}: {} {guard} {state}",
                    Address(address),
                    Halfword(value)
                )
            }
            Line::Outside(address) => write!(f, "{}: outside", Address(address)),
        }
    }
}
