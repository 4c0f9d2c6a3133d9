// The printed sizes of a table: document 01's listing of a table file, or the line of its refusal, as bytes in a lent buffer. The promise
// is an equation with `listing`, whose text comes from the table alone, with no buffer in it.

#![tactic(auto)]

ghost use Rattle.std.specs.Prelude.{◌≡◌};
ghost use Rattle.answers.specs.Answers.{merged_outcome, listed_outcome};
ghost use Rattle.text.specs.Inner.Put.{Put};
ghost use Rattle.text_buffer.specs.Listing.{left, listing};
ghost use Rattle.listing.specs.Inner.Made.{text_from, TextMade};

use answers::Answer as _;
pub use answers::listing::{Listed, ListingRefusal};
use answers::merge::{MergeRefusal, Merged};
use lines::put_sizes;
use merging::ANY_SIZES;
use numbers::wide;
use refusal_line::put_refusal;
pub use text_buffer::put_whole;
use trellis::{MOST_BYTES, MOST_SYMBOLS, MOST_WORDS};

// What is returned for input of any length over the bound.
const TOO_LONG: usize = MOST_BYTES + 1;

// As long as the map of any table: a number for each word at each depth.
pub const ANY_MAP: usize = (MOST_SYMBOLS + 1) * MOST_WORDS;

// Bytes that are enough for every text: it has at most twelve lines, each of a word and at most five numbers of at most five digits.
pub const ANY_TEXT: usize = 1024;

// Measuring answers a table that has a section by refusal 7: no buffer was lent for it.
fn put_answer(answer: Merged, words: usize, sizes: &[u16], text: &mut [u8]) -> usize
    ensures { Put text.old 0 (text_from words (merged_outcome answer) sizes.now) text.new result }
{
    let returned = answer.returned();
    match answer {
        Ok(_) => put_refusal(text, returned),
        Err(refusal) => match refusal {
            MergeRefusal::ShortSection(_) => put_sizes(sizes, words, text),
            _ => put_refusal(text, returned),
        },
    }
}

// The map is long enough for every table.
fn put_text(file: &[u8], text: &mut [u8]) -> usize
    ensures { TextMade file.now text.old text.new result }
{
    if file.len() > MOST_BYTES {
        let too_long: Merged = Err(MergeRefusal::Length(TOO_LONG));
        return put_refusal(text, too_long.returned());
    }
    let mut map = [0u16; ANY_MAP];
    let mut sizes = [0u16; ANY_SIZES];
    let answer = merge::measure(file, &mut map, &mut sizes);
    put_answer(answer, wide(fields::word_count(file)), &sizes, text)
}

// Writes the listing of the table in `file`, or the line of its refusal, to the front of `text`.
pub fn listing(file: &[u8], text: &mut [u8]) -> Listed
    ensures { left (listed_outcome result) text.new ≡ listing file.now text.old }
{
    let mut made = [0u8; ANY_TEXT];
    let length = put_text(file, &mut made);
    put_whole(&made[..length], text)
}
