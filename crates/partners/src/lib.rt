// Where the edges of a step lead, in a table by the vertex that they start from and their symbol, and the partners that they give the
// vertices which they reach.

#![tactic(auto)]

ghost use Rattle.std.specs.Prelude.{◌≡◌, true, not, ◌&&◌, ◌||◌, ◌+◌, ◌*◌, ◌<◌, ◌≤◌, eqb, length, get_or};
ghost use Rattle.trellis.specs.Bounds.{most_words, most_q};
ghost use Rattle.edges.specs.Inner.Edges.{edge_in, meant_edge, EdgesSmall};
ghost use Rattle.twins.specs.Inner.Twins.{turned_in};
ghost use Rattle.partners.specs.Inner.Following.{slot, end_for, Single, Leads, Partners, StepCarried};

use edges::{Edge, Step};
use trellis::{MOST_Q, MOST_WORDS};
use twins::edge_met;

// Where the edges of a step end, on the way back with from and to in each other's place: a number for each vertex and symbol.
#[tactic(auto, using(twins::proofs::Marking::edge_small))]
pub fn ends_of(step: Step, back: bool) -> [u16; MOST_Q * MOST_WORDS]
    requires { EdgesSmall step.pairs.now step.symbols.now step.count × Single (turned_in back step.pairs.now step.symbols.now) step.count }
    ensures { Leads (turned_in back step.entry.pairs.now step.entry.symbols.now) step.entry.count result }
{
    let mut ends = [0u16; MOST_Q * MOST_WORDS];
    for k in 0..step.count {
        let e = edge_met(step, k, back);
        let slot = MOST_Q * e.from + e.symbol;
        ends[slot] = (e.to + 1) as u16;
    }
    ends
}

// Where the edge ends that leaves the partner of an edge's vertex by the edge's symbol.
fn end_for(ends: &[u16; MOST_Q * MOST_WORDS], matched: &[u16; MOST_WORDS], e: Edge) -> u16
    requires { (e.from < most_words) × (e.symbol < most_q) × (length ends.now ≡ most_q * most_words) × (length matched.now ≡ most_words)
        × (0 < get_or matched.now e.from 0) × (get_or matched.now e.from 0 ≤ most_words) }
    ensures { result ≡ end_for ends.now matched.now (meant_edge e) }
{
    let partner = usize::from(matched[e.from]) - 1;
    ends[MOST_Q * partner + e.symbol]
}

// Whether a vertex can have the partner `end`, 0 for none (an option in each place of the arrays would take twice the bytes of the stack),
// if `known` is the partner that it has, 0 for none yet.
fn can_join(known: u16, end: u16) -> bool
    ensures { result ≡ (not (eqb end 0) && (eqb known 0 || eqb known end)) }
{
    end != 0 && (known == 0 || known == end)
}

// Finds the partners of the vertices that a step reaches, if each is the same along all edges that reach the vertex.
#[tactic(auto, using(edges::proofs::Reading::edge_small))]
pub fn carry(
    step: Step,
    ends: &[u16; MOST_Q * MOST_WORDS],
    old: &[u16; MOST_WORDS],
    new: &mut [u16; MOST_WORDS],
) -> bool
    requires { EdgesSmall step.pairs.now step.symbols.now step.count × (length ends.now ≡ most_q * most_words)
        × Partners (edge_in step.pairs.now step.symbols.now) step.count old.now }
    ensures { StepCarried (edge_in step.entry.pairs.now step.entry.symbols.now) step.entry.count ends.now old.now
        new.new result }
{
    *new = [0u16; MOST_WORDS];
    for k in 0..step.count {
        let e = step.edge_at(k);
        let end = end_for(ends, old, e);
        if !can_join(new[e.to], end) {
            return false;
        }
        new[e.to] = end;
    }
    true
}
