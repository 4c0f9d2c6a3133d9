// The first word on each edge of a step, found in one pass over the words, and so for all steps; edge counts.

#![tactic(auto)]

ghost use Rattle.std.specs.Prelude.{◌≡◌, cond, [], ◌∷◌, ◌+◌, ◌-◌, ◌*◌, ◌<◌, ◌≤◌, length};
ghost use Rattle.trellis.specs.Bounds.{most_words};
ghost use Rattle.trellis.specs.Inner.Write.{Wrote};
ghost use Rattle.takers.specs.Inner.Pieces.{SmallMap, AllTaken};
ghost use Rattle.takers.specs.Inner.Takers.{row_edge, raised, takers, SmallRows, ArcOf};

use trellis::{MOST_Q, MOST_SYMBOLS, MOST_WORDS};

// What the scan needs of an edge: its vertex and symbol as one number, and where it leads.
#[derive(Clone, Copy)]
struct Arc {
    key: usize,
    to: u16,
}

// The edge of word i at step t, whose two rows of the map begin at `row`.
fn arc_at(labels: &[u16], n: usize, t: usize, map: &[u16], row: usize, i: usize) -> Arc
    requires { SmallRows map.now labels.now row × (i < length labels.now) }
    ensures { ArcOf (row_edge map.now labels.now n t row i) result.key result.to }
{
    let w = labels.len();
    let from = usize::from(map[row + i]);
    let symbol = usize::from(label::symbol(labels[i], n, t));
    let to = map[row + w + i];
    Arc {
        key: from * 4 + symbol,
        to,
    }
}

// One more than `to` where that is higher.
fn higher(high: u16, to: u16) -> u16
    requires { to < most_words }
    ensures { result ≡ raised high to }
{
    if high <= to { to + 1 } else { high }
}

// Writes v at place `at` if it is wanted; gives the place behind it.
pub fn note(buffer: &mut [u16], at: usize, v: u16, wanted: bool) -> usize
    requires { at < length buffer.old }
    ensures { Wrote buffer.old at (cond wanted (v ∷ []) []) buffer.new result }
{
    if wanted {
        buffer[at] = v;
        return at + 1;
    }
    at
}

// The first word on each edge of step t, written from place `at` on; gives the place behind them.
pub fn take_step(
    labels: &[u16],
    n: usize,
    t: usize,
    map: &[u16],
    row: usize,
    out: &mut [u16],
    at: usize,
) -> usize
    requires { SmallRows map.now labels.now row × (at + length labels.now ≤ length out.old) }
    ensures { Wrote out.old at
        (takers (row_edge map.now labels.now n t row) (length labels.now)) out.new result }
{
    let mut high = [0u16; MOST_Q * MOST_WORDS];
    let mut to = at;
    for i in 0..labels.len() {
        let arc = arc_at(labels, n, t, map, row, i);
        let key = arc.key;
        let next = arc.to;
        let before = high[key];
        high[key] = higher(before, next);
        to = note(out, to, i as u16, before <= next);
    }
    to
}

// The first words of all steps' edges, and how many edges each step has.
#[derive(Clone, Copy)]
pub struct Edges {
    pub total: usize,
    pub counts: [u16; MOST_SYMBOLS],
}

// The first words on the edges of all n steps, one step behind another.
pub fn take_edges(labels: &[u16], n: usize, map: &[u16], out: &mut [u16]) -> Edges
    requires { SmallMap map.now labels.now n × (8192 ≤ length out.old) }
    ensures { AllTaken map.now labels.now n out.old out.new result.total result.counts }
{
    let mut counts = [0u16; MOST_SYMBOLS];
    let mut at: usize = 0;
    let mut row: usize = 0;
    for t in 0..n {
        let end = take_step(labels, n, t, map, row, out, at);
        counts[t] = (end - at) as u16;
        at = end;
        row += labels.len();
    }
    Edges { total: at, counts }
}
