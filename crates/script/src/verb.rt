// The verbs: the first word of a line.
ghost use Rattle.std.specs.Prelude.{◌≡◌};
ghost use Rattle.std.specs.Option.{ok_or};
ghost use Rattle.script.specs.Verbs.{verb_of};
ghost use Rattle.script.specs.declared.unread.Unread.TheVariants.{Text};

use crate::unread::Unread;
use std::str::FromStr;

// What a line asks for.
#[derive(Clone, Copy, PartialEq, Eq, Debug)]
pub enum Verb {
    Storage,
    Cell,
    Sheet,
    Entry,
    Do,
    Load,
    Deposit,
    Protect,
    Examine,
    View,
}

// The verb that a word is, if it is one.
impl FromStr for Verb {
    type Err = Unread;

    ghost from_str_gives = { λ word r. r ≡ ok_or (verb_of word) Text };

    fn from_str(word: &str) -> Result<Verb, Unread> {
        match word {
            "storage" => Ok(Verb::Storage),
            "cell" => Ok(Verb::Cell),
            "sheet" => Ok(Verb::Sheet),
            "entry" => Ok(Verb::Entry),
            "do" => Ok(Verb::Do),
            "load" => Ok(Verb::Load),
            "deposit" => Ok(Verb::Deposit),
            "protect" => Ok(Verb::Protect),
            "examine" => Ok(Verb::Examine),
            "view" => Ok(Verb::View),
            _ => Err(Unread::Text),
        }
    }
}
