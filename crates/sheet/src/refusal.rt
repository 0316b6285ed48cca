// Refused calls: why a call was refused, and the number, place and layer that the refusal carries.
ghost use Rattle.std.specs.Prelude.{◌≡◌, Some};
ghost use Rattle.sheet.specs.Refusals.{layer_text, refusal_of, refused_text};
ghost use Rattle.sheet.specs.declared.refusal.Refusal.TheVariants as refusing;

use std::error::Error;
use std::fmt;

// The part of the machine that refuses.
#[derive(Clone, Copy, PartialEq, Eq, Debug)]
pub enum Layer {
    Sheet,
    Storage,
}

// A fault of a code sheet. An entry is told by its number from 0.
#[derive(Clone, Copy, PartialEq, Eq, Debug)]
pub enum SheetFault {
    Shape,
    Key(u32),
    Code(u32),
}

// A fault of a storage, or of an address in it.
#[derive(Clone, Copy, PartialEq, Eq, Debug)]
pub enum StorageFault {
    Outside(u32),
    Unsound(u32),
    TooSmall,
}

// A refusal of one of the operator's calls.
#[derive(Clone, Copy, PartialEq, Eq, Debug)]
pub enum Refusal {
    Sheet(SheetFault),
    Storage(StorageFault),
}

// By hand, since a `?` has to say which refusal it makes, and the `From` of a derive says nothing.
impl From<SheetFault> for Refusal {
    ghost from_gives = { λ f r. r ≡ refusing.Sheet f };

    fn from(fault: SheetFault) -> Refusal {
        Refusal::Sheet(fault)
    }
}

impl From<StorageFault> for Refusal {
    ghost from_gives = { λ f r. r ≡ refusing.Storage f };

    fn from(fault: StorageFault) -> Refusal {
        Refusal::Storage(fault)
    }
}

impl fmt::Display for Layer {
    ghost output = { λ x. Some (layer_text x) };

    fn fmt<W: fmt::Write>(&self, f: &mut fmt::Formatter<W>) -> fmt::Result {
        f.write_str(match self {
            Layer::Sheet => "sheet",
            Layer::Storage => "storage",
        })
    }
}

impl fmt::Display for Refusal {
    ghost output = { λ x. Some (refused_text (refusal_of x)) };

    fn fmt<W: fmt::Write>(&self, f: &mut fmt::Formatter<W>) -> fmt::Result {
        let number = self.number();
        let place = self.place();
        let layer = self.layer();
        write!(f, "refused {number} at {place} by {layer}")
    }
}

impl Error for Refusal {}

impl Refusal {
    // The number by which the rules of the machine know the refusal; the cases are what code passes on.
    pub fn number(self) -> u16
        ensures { result ≡ (refusal_of self).number }
    {
        match self {
            Refusal::Sheet(SheetFault::Shape) => 1,
            Refusal::Sheet(SheetFault::Key(_)) => 2,
            Refusal::Sheet(SheetFault::Code(_)) => 3,
            Refusal::Storage(StorageFault::Outside(_)) => 4,
            Refusal::Storage(StorageFault::Unsound(_)) => 5,
            Refusal::Storage(StorageFault::TooSmall) => 8,
        }
    }

    // The entry of the sheet, or the address, that was refused; else 0, as the rules of the machine have it.
    pub fn place(self) -> u32
        ensures { result ≡ (refusal_of self).place }
    {
        match self {
            Refusal::Sheet(SheetFault::Key(entry) | SheetFault::Code(entry)) => entry,
            Refusal::Storage(StorageFault::Outside(address) | StorageFault::Unsound(address)) =>
                address,
            _ => 0,
        }
    }

    // The layer that refused.
    pub fn layer(self) -> Layer
        ensures { result ≡ (refusal_of self).layer }
    {
        match self {
            Refusal::Sheet(_) => Layer::Sheet,
            Refusal::Storage(_) => Layer::Storage,
        }
    }
}
