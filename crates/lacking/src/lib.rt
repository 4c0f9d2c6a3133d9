// Chains of words with one ending, and the first word of a chain in a run that another chain passes by.

#![tactic(auto)]

ghost use Rattle.std.specs.Prelude.{◌≡◌, List, ℕ, ◌<◌, ◌≤◌};
ghost use Rattle.trellis.specs.Bounds.{most_words};
ghost use Rattle.lacking.specs.Inner.Search.{FirstWith};
ghost use Rattle.lacking.specs.Inner.Rows.{FirstRow, in_run, before_run, refutes_in};
ghost use Rattle.lacking.specs.Inner.Chains.{Ahead, Chained, Reached, Asked};

use trellis::MOST_WORDS;

// No word has this index: a mark, since an array of options would take twice the bytes of the stack.
pub const NOTHING: u16 = MOST_WORDS as u16;

// The words i, j and k that refute a table.
#[derive(Clone, Copy, PartialEq, Eq)]
pub struct Triple {
    pub i: usize,
    pub j: usize,
    pub k: usize,
}

// For each word the next one with its ending. From the last word on, each is put between the first with its ending and the next after that.
pub fn put_next(firsts: &[u16; MOST_WORDS], w: usize, next: &mut [u16; MOST_WORDS])
    requires { (w ≤ most_words) × FirstRow w firsts.now }
    ensures { Chained w firsts.now next.new }
{
    *next = [NOTHING; MOST_WORDS];
    for i in (0..w).rev() {
        let first = usize::from(firsts[i]);
        let after = next[first];
        next[first] = i as u16;
        next[i] = after; // as it was, if i is that first word
    }
}

// Whether l is one of the first w words, and of the run that starts at a.
pub fn in_run(starts: &[u16; MOST_WORDS], w: usize, a: u16, l: usize) -> bool
    requires { w ≤ most_words }
    ensures { result ≡ in_run starts.now w a l }
{
    l < w && starts[l] == a
}

// Whether l is a word of a run before the one that starts at a.
fn before_run(starts: &[u16; MOST_WORDS], w: usize, a: u16, l: usize) -> bool
    requires { w ≤ most_words }
    ensures { result ≡ before_run starts.now w a l }
{
    l < w && starts[l] < a
}

// Of l and the next words with its ending, the first that is in no run before the one that starts at a.
fn reach(starts: &[u16; MOST_WORDS], next: &[u16; MOST_WORDS], w: usize, a: u16, l: usize) -> usize
    requires { (w ≤ most_words) × Ahead w next.now }
    ensures { (firsts : List ℕ) → Chained w firsts next.now → Reached w starts.now firsts a l result }
{
    let mut word = l;
    // Each word of a chain says where the next is, so no range goes over them: `for` would be no plainer.
    while before_run(starts, w, a, word) {
        word = usize::from(next[word]);
    }
    word
}

// The first word with i's ending whose run lacks the ending of j, if there is one. Where the first words with these endings
// are of one run, and before i, there is none: with them it would be a witness that begins before i.
pub fn first_lacking(
    starts: &[u16; MOST_WORDS],
    firsts: &[u16; MOST_WORDS],
    next: &[u16; MOST_WORDS],
    w: usize,
    i: usize,
    j: usize,
) -> Option<usize>
    requires { Asked w starts.now firsts.now next.now i j }
    ensures { FirstWith (refutes_in starts.now firsts.now w) w i j result }
{
    let mut k = usize::from(firsts[i]);
    let mut l = usize::from(firsts[j]);
    if in_run(starts, i, starts[l], k) {
        return None;
    }
    // It goes along the chain, as reach does.
    while k < w {
        let a = starts[k];
        l = reach(starts, next, w, a, l);
        if !in_run(starts, w, a, l) {
            return Some(k);
        }
        k = usize::from(next[k]);
    }
    None
}
