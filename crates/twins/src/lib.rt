// The vertices of a step: whether each has an edge, and whether edges that agree at the one end and in the symbol lead to twins at the
// other. Fixed arrays of marks keep the work to a few looks at each number. Both questions are asked of the edges as they stand and, with
// from and to in each other's place, of the way back.

#![tactic(auto)]

ghost use Rattle.std.specs.Prelude.{◌≡◌, not, ◌||◌, ◌&&◌, ◌+◌, ◌*◌, ◌<◌, ◌≤◌, eqb, length};
ghost use Rattle.trellis.specs.Bounds.{most_words};
ghost use Rattle.edges.specs.Inner.Edges.{EdgesSmall, held_edge};
ghost use Rattle.twins.specs.Inner.Twins.{covered, no_twins_of, turned_in, Marks};

use edges::{Edge, Step};
use trellis::{MOST_Q, MOST_WORDS};

// Edge k, on the way back with from and to in each other's place.
pub fn edge_met(step: Step, k: usize, back: bool) -> Edge
    requires { (2 * k + 1 < length step.pairs.now) × (k < length step.symbols.now) }
    ensures { result ≡ held_edge (turned_in back step.entry.pairs.now step.entry.symbols.now k) }
{
    let e = step.edge_at(k);
    if back {
        Edge {
            from: e.to,
            symbol: e.symbol,
            to: e.from,
        }
    } else {
        e
    }
}

// A mark for each vertex that an edge starts from.
#[tactic(auto, using(crate::proofs::Marking::edge_small))]
pub fn marks(step: Step, back: bool) -> [u8; MOST_WORDS]
    requires { EdgesSmall step.pairs.now step.symbols.now step.count }
    ensures { Marks (λ k. (turned_in back step.entry.pairs.now step.entry.symbols.now k).from) step.entry.count result }
{
    let mut marks = [0u8; MOST_WORDS];
    for k in 0..step.count {
        let e = edge_met(step, k, back);
        marks[e.from] = 1;
    }
    marks
}

// Whether an edge starts from each vertex. It is not inlined, and neither is `without_twins`, so that their arrays do not stand on the
// stack side by side.
#[inline(never)]
pub fn covers(step: Step, back: bool, vertices: usize) -> bool
    requires { EdgesSmall step.pairs.now step.symbols.now step.count × (vertices ≤ most_words) }
    ensures { result ≡ covered (λ k. (turned_in back step.entry.pairs.now step.entry.symbols.now k).from) step.entry.count vertices }
{
    let marks = marks(step, back);
    (0..vertices).all(|v| marks[v] != 0)
}

// Whether a vertex was seen before, and was another one. Seen is 0 where none was, and else one more than the
// vertex: an array of options would take twice the bytes of the stack.
fn differs(seen: u16, vertex: usize) -> bool
    requires { vertex < most_words }
    ensures { result ≡ (not (eqb seen 0) && not (eqb seen (vertex + 1))) }
{
    seen != 0 && usize::from(seen) != vertex + 1
}

// Whether edges that share a symbol and the vertex that they start from share the vertex where they end. The array has a place for each
// vertex and symbol, with the vertex that was seen at the other end.
#[inline(never)]
#[tactic(auto, using(crate::proofs::Marking::edge_small))]
fn without_twins(step: Step, back: bool) -> bool
    requires { EdgesSmall step.pairs.now step.symbols.now step.count }
    ensures { result ≡ no_twins_of (turned_in back step.entry.pairs.now step.entry.symbols.now) step.entry.count }
{
    let mut seen = [0u16; MOST_Q * MOST_WORDS];
    for k in 0..step.count {
        let e = edge_met(step, k, back);
        let slot = MOST_Q * e.from + e.symbol;
        if differs(seen[slot], e.to) {
            return false;
        }
        seen[slot] = (e.to + 1) as u16;
    }
    true
}

// Twins matter at inner depths only.
pub fn twins_right(inner: bool, step: Step, back: bool) -> bool
    requires { EdgesSmall step.pairs.now step.symbols.now step.count }
    ensures { result ≡ (not inner || no_twins_of (turned_in back step.entry.pairs.now step.entry.symbols.now) step.entry.count) }
{
    !inner || without_twins(step, back)
}
