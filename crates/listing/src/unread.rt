// A line of the script that cannot be read.
ghost use Rattle.listing.specs.Unread.{unread_text};
ghost use Rattle.std.specs.Prelude.{Some};
ghost use Rattle.std.specs.Option.{option_map};

use std::fmt;

// The file, if it is not the script itself, the line's number, and the line as it stands.
#[derive(Clone, Copy)]
pub struct CannotRead<'a> {
    pub file: Option<&'a str>,
    pub number: u64,
    pub line: &'a str,
}

impl fmt::Display for CannotRead<'_> {
    ghost output = { λ x. Some (unread_text (option_map (λ f. f.now) x.file) x.number x.line.now) };

    fn fmt<W: fmt::Write>(&self, f: &mut fmt::Formatter<W>) -> fmt::Result {
        let number = self.number;
        let line = self.line;
        match self.file {
            None => write!(f, "line {number}: cannot read: {line}"),
            Some(file) => write!(f, "{file} line {number}: cannot read: {line}"),
        }
    }
}
