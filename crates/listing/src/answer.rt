// The answer of a call, as it is printed.
ghost use Rattle.std.specs.Prelude.{◌≡◌, Some};
ghost use Rattle.listing.specs.Answers.{answer_text, done_text, value_text};
ghost use Rattle.sheet.specs.Refusals.{told};

use crate::number::Halfword;
use sheet::refusal::Refusal;
use std::fmt;

// What a call served, which is a halfword if it reads, or its refusal.
#[derive(Clone, Copy, PartialEq, Eq, Debug)]
pub struct Answer(pub Result<Option<u16>, Refusal>);

// The answer of a call that serves without a value.
impl From<Result<(), Refusal>> for Answer {
    ghost from_gives = { λ r a. answer_text a ≡ done_text (told r) };

    fn from(answer: Result<(), Refusal>) -> Answer {
        Answer(answer.map(|()| None))
    }
}

// The answer of a call that reads.
impl From<Result<u16, Refusal>> for Answer {
    ghost from_gives = { λ r a. answer_text a ≡ value_text (told r) };

    fn from(answer: Result<u16, Refusal>) -> Answer {
        Answer(answer.map(|value| Some(value)))
    }
}

impl fmt::Display for Answer {
    ghost output = { λ x. Some (answer_text x) };

    fn fmt<W: fmt::Write>(&self, f: &mut fmt::Formatter<W>) -> fmt::Result {
        match self.0 {
            Ok(None) => f.write_str("done"),
            Ok(Some(value)) => write!(f, "{}", Halfword(value)),
            Err(refusal) => write!(f, "{refusal}"),
        }
    }
}
