// Why a line was not read.
ghost use Rattle.std.specs.Prelude.{◌≡◌, Some};
ghost use Rattle.script.specs.Unread.{unread_text};
ghost use Rattle.script.specs.declared.unread.Unread.TheVariants as unread;

use listing::line::UnknownKind;
use std::alloc::{AllocError, AllocFailed};
use std::error::Error;
use std::fmt;

#[derive(Clone, Copy, PartialEq, Eq, Debug)]
pub enum Unread {
    // There is no memory left.
    Memory,
    // The line cannot be read.
    Text,
}

impl fmt::Display for Unread {
    ghost output = { λ x. Some (unread_text x) };

    fn fmt<W: fmt::Write>(&self, f: &mut fmt::Formatter<W>) -> fmt::Result {
        match *self {
            Unread::Memory => f.write_str("there is no memory left"),
            Unread::Text => f.write_str("the line cannot be read"),
        }
    }
}

impl Error for Unread {}

impl From<UnknownKind> for Unread {
    ghost from_gives = { λ _ r. r ≡ unread.Text };

    fn from(_e: UnknownKind) -> Unread {
        Unread::Text
    }
}

// By hand, since contracts say which case a `?` makes, and the `From` of a derive says nothing. `push` fails with an error of
// its own.
impl From<AllocError> for Unread {
    ghost from_gives = { λ _ r. r ≡ unread.Memory };

    fn from(_e: AllocError) -> Unread {
        Unread::Memory
    }
}

impl<T: Drop> From<AllocFailed<T>> for Unread {
    ghost from_gives = { λ _ r. r ≡ unread.Memory };

    fn from(_e: AllocFailed<T>) -> Unread {
        Unread::Memory
    }
}
