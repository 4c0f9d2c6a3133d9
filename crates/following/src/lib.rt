// The matching of two sections' vertices, followed step by step. An inner vertex is known by where it is reached from and by which symbol,
// so each step gives the partners of the vertices that it reaches. At the last step both ends of an edge are known, and the edge must be
// there. For each vertex an array holds one more than its partner, and 0 where none is known yet.

#![tactic(auto)]

ghost use Rattle.std.specs.Prelude.{◌≡◌, true, ℕ, ◌+◌, ◌*◌, ◌<◌, ◌≤◌, eqb, length, get_or};
ghost use Rattle.trellis.specs.Bounds.{most_words, most_q};
ghost use Rattle.trellis.specs.Lists.{run, all};
ghost use Rattle.edges.specs.Inner.Edges.{edge_in, EdgesSmall};
ghost use Rattle.twins.specs.Inner.Twins.{turned_in};
ghost use Rattle.whole_section.specs.Inner.StepAt.{part_from, StepAt};
ghost use Rattle.partners.specs.Inner.Following.{slot, Single, Partners, StepMatched, LastMatched, BothSeen, FollowedBy};

use edges::Step;
use numbers::{number, wide};
use partners::{carry, ends_of};
use section_file::Section;
use trellis::{MOST_Q, MOST_WORDS};

// One step of `count` edges, whose pairs and symbols begin at the same places of both sections: from the partners of the vertices that it
// leaves to those of the vertices that it reaches.
fn match_step(
    a: &[u16],
    b: &[u16],
    pairs: usize,
    symbols: usize,
    count: usize,
    matched: &mut [u16; MOST_WORDS],
) -> bool
    requires { StepAt a.now pairs symbols count × StepAt b.now pairs symbols count
        × Single (edge_in (part_from pairs b.now) (part_from symbols b.now)) count
        × Partners (edge_in (part_from pairs a.now) (part_from symbols a.now)) count matched.old }
    ensures { StepMatched (run (edge_in (part_from pairs a.now) (part_from symbols a.now)) 0 count)
        (run (edge_in (part_from pairs b.now) (part_from symbols b.now)) 0 count)
        matched.old matched.new result }
{
    let theirs = Step {
        pairs: &b[pairs..],
        symbols: &b[symbols..],
        count,
    };
    let ends = ends_of(theirs, false);
    let old = *matched;
    let ours = Step {
        pairs: &a[pairs..],
        symbols: &a[symbols..],
        count,
    };
    carry(ours, &ends, &old, matched)
}

// Whether each edge of the last step leaves the vertex whose partner the edge with its end and symbol leaves; `starts` has these.
#[tactic(auto, using(edges::proofs::Reading::edge_small))]
fn all_close(step: Step, starts: &[u16; MOST_Q * MOST_WORDS], matched: &[u16; MOST_WORDS]) -> bool
    requires { EdgesSmall step.pairs.now step.symbols.now step.count × (length starts.now ≡ most_q * most_words)
        × (length matched.now ≡ most_words) }
    ensures { result ≡ all (λ k. eqb (get_or starts.now (slot (edge_in step.entry.pairs.now step.entry.symbols.now k).to
        (edge_in step.entry.pairs.now step.entry.symbols.now k).symbol) 0)
        (get_or matched.now (edge_in step.entry.pairs.now step.entry.symbols.now k).from 0)) step.entry.count }
{
    for k in 0..step.count {
        let e = step.edge_at(k);
        let slot = MOST_Q * e.to + e.symbol;
        if starts[slot] != matched[e.from] {
            return false;
        }
    }
    true
}

// The last step: its edges keep their ends, and an edge is known by its end and its symbol.
fn match_last(
    a: &[u16],
    b: &[u16],
    pairs: usize,
    symbols: usize,
    count: usize,
    matched: &[u16; MOST_WORDS],
) -> bool
    requires { StepAt a.now pairs symbols count × StepAt b.now pairs symbols count
        × Single (turned_in true (part_from pairs b.now) (part_from symbols b.now)) count
        × Partners (edge_in (part_from pairs a.now) (part_from symbols a.now)) count matched.now }
    ensures { LastMatched (run (edge_in (part_from pairs a.now) (part_from symbols a.now)) 0 count)
        (run (edge_in (part_from pairs b.now) (part_from symbols b.now)) 0 count)
        matched.now result }
{
    let theirs = Step {
        pairs: &b[pairs..],
        symbols: &b[symbols..],
        count,
    };
    let starts = ends_of(theirs, true);
    let ours = Step {
        pairs: &a[pairs..],
        symbols: &a[symbols..],
        count,
    };
    all_close(ours, &starts, matched)
}

// The first vertices, each its own partner: those of depth 0, whose states are the same.
fn own_partners(count: usize) -> [u16; MOST_WORDS]
    requires { count ≤ most_words }
    ensures { (length result ≡ most_words) × ((v : ℕ) → v < count → get_or result v 0 ≡ v + 1) }
{
    let mut matched = [0u16; MOST_WORDS];
    for v in 0..count {
        matched[v] = (v + 1) as u16;
    }
    matched
}

// Whether there is a map from the vertices of the one section to those of the other that keeps end states and symbols and carries edges to
// edges.
pub fn follow(ours: Section, b: &[u16]) -> bool
    requires { BothSeen ours.numbers.now b.now ours.view × (1 < ours.view.n) }
    ensures { FollowedBy ours.entry.numbers.now b.now result }
{
    let a = ours.numbers;
    let at = ours.view;
    let n = at.n;
    let last = n - 1;
    let mut matched = own_partners(at.goals - at.roots);
    let mut pairs = at.pairs;
    let mut symbols = at.symbols;
    for t in 0..last {
        let count = wide(number(a, 4 + n + t));
        if !match_step(a, b, pairs, symbols, count, &mut matched) {
            return false;
        }
        pairs += 2 * count;
        symbols += count;
    }
    let count = wide(number(a, 4 + n + last));
    match_last(a, b, pairs, symbols, count, &matched)
}
