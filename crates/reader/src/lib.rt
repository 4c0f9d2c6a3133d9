// A reader over the table file of document 01, which holds the lent slice and the index of the word that comes next. Its functions are
// thin: the work is done by functions of `fields`, which take a slice and an index, and each answers for all arguments.

#![tactic(auto)]

ghost use Rattle.std.specs.Prelude.{◌≡◌, ◌-◌};
ghost use Rattle.std.specs.Iterator.{at_most};
ghost use Rattle.fields.specs.Fields.{file_word, word_count};
ghost use Rattle.fields.specs.Inner.Answer.{held_word, found_at};
ghost use Rattle.fields.specs.Inner.ReadOn.{place_after};

pub use fields::{Word, byte_at, length_bad, two_bytes, word_count};
pub use file_words::word_at;
use file_words::{found_at, place_after, word_of};

// The lent bytes and the index of the next word.
#[derive(Clone, Copy)]
pub struct Reader<'a> {
    pub file: &'a [u8],
    pub at: u16,
}

impl<'a> Reader<'a> {
    // A reader at word 0.
    pub fn start(file: &'a [u8]) -> Reader<'a>
        ensures { (result.file ≡ file.entry) × (result.at ≡ 0) }
    {
        Reader { file, at: 0 }
    }

    // A reader at any word.
    pub fn placed(file: &'a [u8], at: u16) -> Reader<'a>
        ensures { (result.file ≡ file.entry) × (result.at ≡ at) }
    {
        Reader { file, at }
    }

    // The index of the word that comes next.
    pub fn position(&self) -> u16
        ensures { result ≡ self.now.at }
    {
        self.at
    }

    // The word that comes next, without moving on. Past the end it reads bytes that are not there as 0, so that it needs no condition.
    pub fn word_here(&self) -> Word
        ensures { result ≡ held_word (file_word self.now.file.now self.now.at) }
    {
        word_of(self.file, self.at)
    }
}

// The words from here on. The reader moves on by one word at a time, and at the end it stays.
impl<'a> Iterator for Reader<'a> {
    type Item = Word;

    ghost next_gives = { λ before found after. (found ≡ found_at before.file.now before.at) × (after.file ≡ before.file)
        × (after.at ≡ place_after before.file.now before.at) };

    ghost remaining = { λ reader. at_most (word_count reader.file.now - reader.at) };

    // The word that comes next, or the end.
    fn next(&mut self) -> Option<Word> {
        let found = found_at(self.file, self.at);
        self.at = place_after(self.file, self.at);
        found
    }
}

// Word i, read through a reader that is placed there: what the rest of the kit calls, since its parameters are plain.
pub fn word_through(file: &[u8], i: u16) -> Word
    ensures { result ≡ held_word (file_word file.now i) }
{
    Reader::placed(file, i).word_here()
}
