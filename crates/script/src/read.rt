// One line of the script, read into a command.
ghost use Rattle.std.specs.Prelude.{◌≡◌, ◌==◌, length, if◌then◌else◌, Ok, Err};
ghost use Rattle.std.specs.Option.{ok_or};
ghost use Rattle.script.specs.Commands.{Agrees, ReadAs, said_by, said_in, stretch_in};
ghost use Rattle.script.specs.Read.{words_in};
ghost use Rattle.script.specs.declared.verb.Verb.TheVariants as verb;

use crate::command::{Command, Stretch};
use crate::unread::Unread;
use crate::verb::Verb;
use crate::words::Words;
use crate::{name, parse};
use std::alloc::Global;

impl Words<'_> {
    // There are so many words, the verb among them.
    fn exactly(&self, count: usize) -> Result<(), Unread>
        ensures { result ≡ (if length (words_in self.now) == count then Ok tt else Err Unread.Text) }
    {
        if self.count() == count {
            Ok(())
        } else {
            Err(Unread::Text)
        }
    }

    // The stretch that begins at the address in word 1. Its count is the word numbered `last`, and no word stands after it; a
    // count that is left out is 1.
    fn stretch(&self, last: usize) -> Result<Stretch, Unread>
        ensures { result ≡ ok_or (stretch_in last (words_in self.now)) Unread.Text }
    {
        match self.count().checked_sub(last) {
            Some(0) => parse::stretch(self.word(1), "1"),
            Some(1) => parse::stretch(self.word(1), self.word(last)),
            _ => Err(Unread::Text),
        }
    }

    fn storage(&self) -> Result<Command, Unread>
        ensures { Agrees result (said_by verb.Storage (words_in self.now)) }
    {
        self.exactly(3)?;
        parse::storage(self.word(1), self.word(2))
    }

    // A deposit differs in what its values are; one text for both would be longer than the two.
    fn cell(&self) -> Result<Command, Unread>
        ensures { Agrees result (said_by verb.Cell (words_in self.now)) }
    {
        let cells = self.numbers(2)?;
        parse::cell(self.word(1), cells)
    }

    fn sheet(&self) -> Result<Command, Unread>
        ensures { Agrees result (said_by verb.Sheet (words_in self.now)) }
    {
        let halfwords = self.numbers(1)?;
        parse::sheet(halfwords)
    }

    fn entry(&self) -> Result<Command, Unread>
        ensures { Agrees result (said_by verb.Entry (words_in self.now)) }
    {
        self.exactly(3)?;
        parse::entry(self.word(1), self.word(2))
    }

    fn file(&self) -> Result<Command, Unread>
        ensures { Agrees result (said_by verb.Do (words_in self.now)) }
    {
        self.exactly(2)?;
        Ok(Command::Do(String::from_str(self.heap(), self.word(1))?))
    }

    fn load(&self) -> Result<Command, Unread>
        ensures { Agrees result (said_by verb.Load (words_in self.now)) }
    {
        self.exactly(1)?;
        Ok(Command::Load)
    }

    fn deposit(&self) -> Result<Command, Unread>
        ensures { Agrees result (said_by verb.Deposit (words_in self.now)) }
    {
        let values = self.numbers(2)?;
        parse::deposit(self.word(1), values)
    }

    fn protect(&self) -> Result<Command, Unread>
        ensures { Agrees result (said_by verb.Protect (words_in self.now)) }
    {
        let stretch = self.stretch(3)?;
        let bit = name::bit(self.word(2)).ok_or(Unread::Text)?;
        Ok(Command::Protect { stretch, bit })
    }

    fn examine(&self) -> Result<Command, Unread>
        ensures { Agrees result (said_by verb.Examine (words_in self.now)) }
    {
        Ok(Command::Examine(self.stretch(2)?))
    }

    fn view(&self) -> Result<Command, Unread>
        ensures { Agrees result (said_by verb.View (words_in self.now)) }
    {
        Ok(Command::View(self.stretch(2)?))
    }

    // The command of a line that begins with a verb. The compiler sees that the match has each verb; a table of functions
    // would be no plainer, and nothing would see that.
    fn command(&self, verb: Verb) -> Result<Command, Unread>
        ensures { Agrees result (said_by verb (words_in self.now)) }
    {
        match verb {
            Verb::Storage => self.storage(),
            Verb::Cell => self.cell(),
            Verb::Sheet => self.sheet(),
            Verb::Entry => self.entry(),
            Verb::Do => self.file(),
            Verb::Load => self.load(),
            Verb::Deposit => self.deposit(),
            Verb::Protect => self.protect(),
            Verb::Examine => self.examine(),
            Verb::View => self.view(),
        }
    }

    // The command that the words say.
    fn said(&self) -> Result<Command, Unread>
        ensures { Agrees result (said_in (words_in self.now)) }
    {
        if self.count() == 0 {
            return Ok(Command::Blank);
        }
        let verb = self.word(0).parse()?;
        self.command(verb)
    }
}

// What a line says.
pub fn read_line(heap: Global, line: &str) -> Result<Command, Unread>
    ensures { ReadAs line.now result }
{
    let words = Words::of(heap, line)?;
    words.said()
}
