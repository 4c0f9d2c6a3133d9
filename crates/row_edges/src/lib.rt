// The edges of a table of sums, each one number, (from, symbol, to), as the pairs and the symbols of a section.

#![tactic(auto)]

ghost use Rattle.std.specs.Prelude.{◌+◌};
ghost use Rattle.trellis.specs.Layout.{joined_up};
ghost use Rattle.trellis.specs.Inner.Write.{Wrote};
ghost use Rattle.row_pieces.specs.Inner.Pieces.{step_pairs, step_symbols, PiecesAsked};

pub use row_arcs::take_edges;
use row_pieces::{put_pairs, put_symbols};
use trellis::MOST_SYMBOLS;

// The pairs of all steps' edges, one step behind another, from place `at` on. `edges` and `counts` are what take_edges left.
pub fn put_all_pairs(
    edges: &[u16],
    counts: &[u16; MOST_SYMBOLS],
    n: usize,
    dims: &[usize; MOST_SYMBOLS + 1],
    section: &mut [u16],
    at: usize,
) -> usize
    requires { PiecesAsked 2 edges.now counts.now n dims.now section.old at }
    ensures { Wrote section.old at (joined_up (step_pairs edges.now counts.now dims.now) n)
        section.new result }
{
    let mut to = at;
    let mut lo: usize = 0;
    for t in 0..n {
        let hi = lo + usize::from(counts[t]);
        to = put_pairs(&edges[lo..hi], dims[t + 1], section, to);
        lo = hi;
    }
    to
}

// The symbols of all steps' edges, in the same order, by a loop of its own as in `pieces`.
pub fn put_all_symbols(
    edges: &[u16],
    counts: &[u16; MOST_SYMBOLS],
    n: usize,
    dims: &[usize; MOST_SYMBOLS + 1],
    section: &mut [u16],
    at: usize,
) -> usize
    requires { PiecesAsked 1 edges.now counts.now n dims.now section.old at }
    ensures { Wrote section.old at
        (joined_up (step_symbols edges.now counts.now dims.now) n) section.new result }
{
    let mut to = at;
    let mut lo: usize = 0;
    for t in 0..n {
        let hi = lo + usize::from(counts[t]);
        to = put_symbols(&edges[lo..hi], dims[t + 1], section, to);
        lo = hi;
    }
    to
}
