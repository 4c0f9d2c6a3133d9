// The words of a table file, read in place: word i, the word at an index if there is one, and the place behind it.

#![tactic(auto)]

ghost use Rattle.std.specs.Prelude.{◌≡◌};
ghost use Rattle.fields.specs.Fields.{file_word};
ghost use Rattle.fields.specs.Inner.Answer.{held_word, found_at};
ghost use Rattle.fields.specs.Inner.ReadOn.{place_after};

use fields::{Word, byte_at, length_bad, two_bytes, word_count};

// The fields of a word. An index of 16 bits keeps every place far below the largest usize.
fn root_at(file: &[u8], i: u16) -> u8
    ensures { result ≡ (file_word file.now i).root }
{
    byte_at(file, 5 + 2 * (i as usize))
}

fn goal_at(file: &[u8], i: u16) -> u8
    ensures { result ≡ (file_word file.now i).goal }
{
    byte_at(file, 5 + 2 * (i as usize) + 1)
}

fn label_at(file: &[u8], i: u16) -> u16
    ensures { result ≡ (file_word file.now i).label }
{
    let at = 5 + 2 * (word_count(file) as usize) + 2 * (i as usize);
    let low = byte_at(file, at);
    let high = byte_at(file, at + 1);
    two_bytes(low, high)
}

// The word decoder that a reader calls.
pub fn word_of(file: &[u8], i: u16) -> Word
    ensures { result ≡ held_word (file_word file.now i) }
{
    Word {
        root: root_at(file, i),
        label: label_at(file, i),
        goal: goal_at(file, i),
    }
}

// The word at an index, for readers: there is none where the file's length is not what its word count asks for.
pub fn word_at(file: &[u8], i: usize) -> Option<Word>
    ensures { result ≡ found_at file.now i }
{
    if length_bad(file) {
        return None;
    }
    if i >= word_count(file) as usize {
        return None;
    }
    Some(word_of(file, i as u16))
}

// The word at an index of 16 bits, which a reader holds.
pub fn found_at(file: &[u8], i: u16) -> Option<Word>
    ensures { result ≡ found_at file.now i }
{
    word_at(file, usize::from(i))
}

// Where a reader stands that has read on from word i: behind the word, or still there if there is none.
pub fn place_after(file: &[u8], i: u16) -> u16
    ensures { result ≡ place_after file.now i }
{
    if length_bad(file) {
        return i;
    }
    if i >= word_count(file) {
        return i;
    }
    i + 1
}
