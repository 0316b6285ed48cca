// The words of a line.
ghost use Rattle.std.specs.Prelude.{◌≡◌, length, drop};
ghost use Rattle.script.specs.Numbers.{number_by};
ghost use Rattle.script.specs.Words.{Uncommented, word_at};
ghost use Rattle.script.specs.Read.{NumbersRead, WordsRead, words_in};

use crate::number::{Numeral, number};
use crate::unread::Unread;
use std::alloc::Global;

// The words of a line, up to its comment, and the allocator for what is read of them.
#[derive(Drop)]
pub struct Words<'a> {
    heap: Global,
    words: Vec<&'a str>,
}

// The line without its comment.
fn uncommented(line: &str) -> &str
    ensures { Uncommented line.now result.now }
{
    match line.split_once('#') {
        Some((before, _)) => before,
        None => line,
    }
}

impl<'a> Words<'a> {
    // The words of a line.
    pub fn of(heap: Global, line: &'a str) -> Result<Words<'a>, Unread>
        ensures { WordsRead line.now result }
    {
        let words = uncommented(line).split_whitespace().collect(heap)?;
        Ok(Words { heap, words })
    }

    // The allocator for what is read of them.
    pub fn heap(&self) -> Global
        ensures { result ≡ self.now.heap }
    {
        self.heap
    }

    // How many words there are.
    pub fn count(&self) -> usize
        ensures { result ≡ length (words_in self.now) }
    {
        self.words.len()
    }

    // The word with a number, counted from 0; no text where there is none.
    pub fn word(&self, number: usize) -> &'a str
        ensures { result.now ≡ word_at (words_in self.now) number }
    {
        self.words.get(number).copied().unwrap_or("")
    }

    // The numbers in hexadecimal that the words from a number on write.
    pub fn numbers<T: Numeral + Drop>(&self, from: usize) -> Result<Vec<T>, Unread>
        ensures { NumbersRead (number_by T.from_value 16 T.limit) (drop from (words_in self.now)) result }
    {
        let mut all = Vec::new(self.heap);
        for word in self.words.iter().skip(from) {
            all.push(number(word, 16).ok_or(Unread::Text)?)?;
        }
        Ok(all)
    }
}
