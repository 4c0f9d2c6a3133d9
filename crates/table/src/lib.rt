// Checks 1 to 4 of document 01's table file, in their order, over the lent bytes and with no copy of the table.
// Every function answers for all arguments, by an equation with a definition of specs/.

#![tactic(auto)]

ghost use Rattle.std.specs.Prelude.{◌≡◌};
ghost use Rattle.trellis.specs.Lists.{found_below};
ghost use Rattle.label.specs.Inner.Labels.{InOrder};
ghost use Rattle.fields.specs.Fields.{byte_at, word_count};
ghost use Rattle.fields.specs.Inner.Answer.{meant_word};
ghost use Rattle.table.specs.File.{outside, word_outside, is_before, first_size, first_bad, first_not_above, table_file, file_outcome};
ghost use Rattle.table.specs.Inner.Answer.{checked_outcome};

use answers::merge::MergeRefusal;
use fields::{Word, byte_at, length_bad, word_count};
use packed::is_label;
use reader::word_through;

// Document 01's bounds as numbers of the width that they are compared in: a constant has one width, and a cast at each comparison is no
// plainer.
const LEAST_Q: u16 = trellis::LEAST_Q as u16;

const MOST_Q: u16 = trellis::MOST_Q as u16;

const MOST_SYMBOLS: u16 = trellis::MOST_SYMBOLS as u16;

const MOST_STATES: u16 = trellis::MOST_STATES as u16;

const MOST_WORDS: u16 = trellis::MOST_WORDS as u16;

// What a file states of its table, within document 01's bounds.
#[derive(Clone, Copy)]
pub struct Sizes {
    pub q: u8,
    pub n: u8,
    pub states: u8,
    pub words: u16,
}

fn is_outside(x: u16, low: u16, high: u16) -> bool
    ensures { result ≡ outside x low high }
{
    x < low || high < x
}

fn byte_outside(file: &[u8], at: usize, low: u16, high: u16) -> bool
    ensures { result ≡ outside (byte_at file.now at) low high }
{
    is_outside(u16::from(byte_at(file, at)), low, high)
}

// Check 2: the first place of q, n, S, W that is outside its bounds.
fn first_size(file: &[u8]) -> Option<usize>
    ensures { result ≡ found_below 4 (first_size file.now) }
{
    let outside = [
        byte_outside(file, 0, LEAST_Q, MOST_Q),
        byte_outside(file, 1, 1, MOST_SYMBOLS),
        byte_outside(file, 2, 1, MOST_STATES),
        is_outside(word_count(file), 1, MOST_WORDS),
    ];
    outside.iter().position(|is_outside| *is_outside)
}

fn word_outside(w: Word, q: u8, n: u8, states: u8) -> bool
    ensures { result ≡ word_outside q n states (meant_word w) }
{
    w.root >= states || w.goal >= states || !is_label(w.label, u16::from(q), usize::from(n))
}

// Check 3: the first word with a state, a label or a symbol that is too large.
fn first_bad(file: &[u8]) -> Option<usize>
    ensures { result ≡ found_below (word_count file.now) (first_bad file.now) }
{
    let q = byte_at(file, 0);
    let n = byte_at(file, 1);
    let states = byte_at(file, 2);
    for i in 0..word_count(file) {
        if word_outside(word_through(file, i), q, n, states) {
            return Some(usize::from(i));
        }
    }
    None
}

// Whether v comes before w: by root, then label, then goal. The order of two labels as numbers is that of their symbols, from the first one
// on, and `symbols` says so wherever labels decide.
fn is_before(v: Word, w: Word) -> bool
    ensures order { result ≡ is_before (meant_word v) (meant_word w) }
    ensures symbols { v.root ≡ w.root → (v.label ≡ w.label → ⊥) → InOrder v.label w.label result }
{
    v < w
}

// Check 4: the first word that is not above the word before it. Each word is read once, and kept for the next turn.
fn first_not_above(file: &[u8]) -> Option<usize>
    ensures { result ≡ found_below (word_count file.now) (first_not_above file.now) }
{
    let mut earlier = word_through(file, 0);
    for i in 1..word_count(file) {
        let here = word_through(file, i);
        if !is_before(earlier, here) {
            return Some(usize::from(i));
        }
        earlier = here;
    }
    None
}

// Checks 1 to 4, each over the whole file before the next begins. It is not inlined: clang, where these checks stand in front of large
// arrays in one function, makes the frame behind the first of them, and loses the answer's case in the loop that touches the frame's pages.
#[inline(never)]
pub fn check(file: &[u8]) -> Result<Sizes, MergeRefusal>
    ensures { checked_outcome result ≡ file_outcome (table_file file.now) }
{
    if length_bad(file) {
        return Err(MergeRefusal::Length(file.len()));
    }
    if let Some(place) = first_size(file) {
        return Err(MergeRefusal::Size(place));
    }
    if let Some(index) = first_bad(file) {
        return Err(MergeRefusal::Word(index));
    }
    if let Some(index) = first_not_above(file) {
        return Err(MergeRefusal::Order(index));
    }
    Ok(Sizes {
        q: byte_at(file, 0),
        n: byte_at(file, 1),
        states: byte_at(file, 2),
        words: word_count(file),
    })
}
