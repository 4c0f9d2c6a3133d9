// The pairs and the symbols of all steps, and the states of the outer depths, written in document 01's layout from the finished map.

#![tactic(auto)]

ghost use Rattle.std.specs.Prelude.{◌+◌, ◌-◌, ◌*◌, ◌≤◌, length};
ghost use Rattle.trellis.specs.Inner.Write.{Wrote};
ghost use Rattle.trellis.specs.Layout.{joined_up};
ghost use Rattle.takers.specs.Inner.Pieces.{SmallMap, step_takers, Taken, step_pairs, step_symbols};

pub mod states;

use pieces::{put_pairs, put_symbols};
pub use takers::{Edges, take_edges, take_step};
use trellis::MOST_SYMBOLS;

// The pairs of all steps' edges, one step behind another, from place `at` on. `words` and `counts` are what take_edges left.
pub fn put_all_pairs(
    words: &[u16],
    counts: &[u16; MOST_SYMBOLS],
    n: usize,
    labels: &[u16],
    map: &[u16],
    section: &mut [u16],
    at: usize,
) -> usize
    requires { SmallMap map.now labels.now n × Taken map.now labels.now n words.now counts.now
        × (at + 2 * length (joined_up (step_takers map.now
        labels.now n) n) ≤ length section.old) }
    ensures { Wrote section.old at (joined_up (step_pairs map.now labels.now n) n)
        section.new result }
{
    let w = labels.len();
    let mut to = at;
    let mut lo: usize = 0;
    let mut row: usize = 0;
    for t in 0..n {
        let count = usize::from(counts[t]);
        to = put_pairs(words, lo, lo + count, map, row, w, section, to);
        lo += count;
        row += w;
    }
    to
}

// The symbols of all steps' edges, in the same order, by a loop of its own as in `pieces`. The map is lent only for the contract to speak
// of: it decides the first words.
pub fn put_all_symbols(
    words: &[u16],
    counts: &[u16; MOST_SYMBOLS],
    n: usize,
    labels: &[u16],
    map: &[u16],
    section: &mut [u16],
    at: usize,
) -> usize
    requires { SmallMap map.now labels.now n × Taken map.now labels.now n words.now counts.now
        × (at + 1 * length (joined_up (step_takers map.now
        labels.now n) n) ≤ length section.old) }
    ensures { Wrote section.old at (joined_up (step_symbols map.now labels.now n) n)
        section.new result }
{
    let mut to = at;
    let mut lo: usize = 0;
    for t in 0..n {
        let count = usize::from(counts[t]);
        to = put_symbols(words, lo, lo + count, labels, n, t, section, to);
        lo += count;
    }
    to
}
