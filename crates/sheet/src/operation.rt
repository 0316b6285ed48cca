// The operations, their numbers and names, and the instruction formats in which each may stand.
ghost use Rattle.std.specs.Prelude.{◌≡◌, Some, codes};
ghost use Rattle.std.specs.Result.{result_ok};
ghost use Rattle.sheet.specs.Names.{operation_named};
ghost use Rattle.sheet.specs.Operations.{among, operations, operation_of, number_of, formats_of, format_of_class, admits as admitted};

use std::error::Error;
use std::fmt;
use std::str::FromStr;

// An operation, with its number on a code sheet.
#[derive(Clone, Copy, PartialEq, Eq, Debug)]
pub enum Operation {
    L = 1,
    Lh = 2,
    A = 3,
    Ah = 4,
    S = 5,
    Sh = 6,
    C = 7,
    Ch = 8,
    N = 10,
    O = 11,
    X = 12,
    St = 13,
    Sth = 14,
    La = 15,
    Lxa = 16,
    Bc = 17,
    Bal = 18,
    Bct = 19,
    Bo = 20,
    Sll = 23,
    Srl = 24,
    Sra = 25,
    Ahi = 26,
    Lhi = 27,
    Svc = 31,
    Lps = 32,
    Ispb = 34,
    Pc = 35,
}

// A number or a name that no operation has.
#[derive(Clone, Copy, PartialEq, Eq, Debug)]
pub struct UnknownOperation;

// How an instruction is spelled.
#[derive(Clone, Copy, PartialEq, Eq, Debug)]
pub enum Format {
    Srs,
    Rr,
    Rs,
}

// A number that no instruction class has.
#[derive(Clone, Copy, PartialEq, Eq, Debug)]
pub struct UnknownClass;

// By hand, here and below, since the text that a derive prints is in no clause.
impl fmt::Display for UnknownOperation {
    ghost output = { λ _. Some (codes "no such operation") };

    fn fmt<W: fmt::Write>(&self, f: &mut fmt::Formatter<W>) -> fmt::Result {
        f.write_str("no such operation")
    }
}

impl Error for UnknownOperation {}

impl fmt::Display for UnknownClass {
    ghost output = { λ _. Some (codes "no such instruction class") };

    fn fmt<W: fmt::Write>(&self, f: &mut fmt::Formatter<W>) -> fmt::Result {
        f.write_str("no such instruction class")
    }
}

impl Error for UnknownClass {}

// The operation's number.
impl From<Operation> for u16 {
    ghost from_gives = { λ o n. n ≡ number_of o };

    fn from(operation: Operation) -> u16 {
        operation as u16
    }
}

// The operation with a number.
impl TryFrom<u16> for Operation {
    type Error = UnknownOperation;

    ghost try_from_gives = { λ n r. result_ok r ≡ operation_of n };

    #[tactic(auto, unfolding(crate::specs::Operations::operation_of))]
    fn try_from(number: u16) -> Result<Operation, UnknownOperation> {
        numbered(number).ok_or(UnknownOperation)
    }
}

// The operation with a name.
impl FromStr for Operation {
    type Err = UnknownOperation;

    ghost from_str_gives = { λ bs r. result_ok r ≡ operation_named bs };

    fn from_str(name: &str) -> Result<Operation, UnknownOperation> {
        named(name).ok_or(UnknownOperation)
    }
}

// The format of an instruction class: class 0 is SRS, classes 1 and 2 are RR, classes 3 and 4 are RS.
impl TryFrom<u16> for Format {
    type Error = UnknownClass;

    ghost try_from_gives = { λ c r. result_ok r ≡ format_of_class c };

    fn try_from(class: u16) -> Result<Format, UnknownClass> {
        match class {
            0 => Ok(Format::Srs),
            1 | 2 => Ok(Format::Rr),
            3 | 4 => Ok(Format::Rs),
            _ => Err(UnknownClass),
        }
    }
}

fn numbered(number: u16) -> Option<Operation>
    ensures { result ≡ among operations number }
{
    match number {
        1 => Some(Operation::L),
        2 => Some(Operation::Lh),
        3 => Some(Operation::A),
        4 => Some(Operation::Ah),
        5 => Some(Operation::S),
        6 => Some(Operation::Sh),
        7 => Some(Operation::C),
        8 => Some(Operation::Ch),
        10 => Some(Operation::N),
        11 => Some(Operation::O),
        12 => Some(Operation::X),
        13 => Some(Operation::St),
        14 => Some(Operation::Sth),
        15 => Some(Operation::La),
        16 => Some(Operation::Lxa),
        17 => Some(Operation::Bc),
        18 => Some(Operation::Bal),
        19 => Some(Operation::Bct),
        20 => Some(Operation::Bo),
        23 => Some(Operation::Sll),
        24 => Some(Operation::Srl),
        25 => Some(Operation::Sra),
        26 => Some(Operation::Ahi),
        27 => Some(Operation::Lhi),
        31 => Some(Operation::Svc),
        32 => Some(Operation::Lps),
        34 => Some(Operation::Ispb),
        35 => Some(Operation::Pc),
        _ => None,
    }
}

fn named(name: &str) -> Option<Operation>
    ensures { result ≡ operation_named name.now }
{
    match name {
        "L" => Some(Operation::L),
        "LH" => Some(Operation::Lh),
        "A" => Some(Operation::A),
        "AH" => Some(Operation::Ah),
        "S" => Some(Operation::S),
        "SH" => Some(Operation::Sh),
        "C" => Some(Operation::C),
        "CH" => Some(Operation::Ch),
        "N" => Some(Operation::N),
        "O" => Some(Operation::O),
        "X" => Some(Operation::X),
        "ST" => Some(Operation::St),
        "STH" => Some(Operation::Sth),
        "LA" => Some(Operation::La),
        "LXA" => Some(Operation::Lxa),
        "BC" => Some(Operation::Bc),
        "BAL" => Some(Operation::Bal),
        "BCT" => Some(Operation::Bct),
        "BO" => Some(Operation::Bo),
        "SLL" => Some(Operation::Sll),
        "SRL" => Some(Operation::Srl),
        "SRA" => Some(Operation::Sra),
        "AHI" => Some(Operation::Ahi),
        "LHI" => Some(Operation::Lhi),
        "SVC" => Some(Operation::Svc),
        "LPS" => Some(Operation::Lps),
        "ISPB" => Some(Operation::Ispb),
        "PC" => Some(Operation::Pc),
        _ => None,
    }
}

impl Operation {
    // The formats in which the operation may be spelled.
    fn formats(self) -> &'static [Format]
        ensures { result.now ≡ formats_of self }
    {
        match self {
            Operation::L | Operation::A | Operation::S | Operation::C => {
                &[Format::Srs, Format::Rr, Format::Rs]
            }
            Operation::N | Operation::O | Operation::X => &[Format::Srs, Format::Rr, Format::Rs],
            Operation::Lh | Operation::Ah | Operation::Sh | Operation::Ch => {
                &[Format::Srs, Format::Rs]
            }
            Operation::St | Operation::Sth | Operation::La => &[Format::Srs, Format::Rs],
            Operation::Bc | Operation::Bal | Operation::Bct | Operation::Bo => {
                &[Format::Rr, Format::Rs]
            }
            Operation::Lxa | Operation::Svc | Operation::Lps | Operation::Ispb => &[Format::Rs],
            Operation::Sll | Operation::Srl | Operation::Sra => &[Format::Srs],
            Operation::Ahi | Operation::Lhi | Operation::Pc => &[Format::Rr],
        }
    }

    // Whether the operation may stand in a class, which is a number of the machine: its key divided by 256.
    pub fn admits(self, class: u16) -> bool
        ensures { result ≡ admitted self class }
    {
        Format::try_from(class).is_ok_and(|format| self.formats().contains(&format))
    }
}
