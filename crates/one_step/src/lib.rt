// One step of a section: the beginnings that are kept go on along every edge that leaves their vertices, and of all that come within a
// limit the k best are kept.

#![tactic(auto)]

ghost use Rattle.std.specs.Prelude.{◌≡◌, ◌<◌, ◌≤◌, take};
ghost use mathlib.Core.List.{flat_map};
ghost use Rattle.trellis.specs.Bounds.{most_words, most_q};
ghost use Rattle.trellis.specs.Lists.{run};
ghost use Rattle.paths.specs.Chain.{unreached};
ghost use Rattle.dearest.specs.Inner.Items.{Kept};
ghost use Rattle.edges.specs.Inner.Edges.{edge_in, meant_edge};
ghost use Rattle.whole_section.specs.Inner.StepAt.{StepEdges};
ghost use Rattle.codes.specs.Inner.Codes.{further_code};
ghost use Rattle.one_step.specs.Inner.Steps.{candidate, candidates};
ghost use Rattle.one_step.specs.Inner.Loops.{StepRoom, limited, Streamed, Stepped};

use codes::vertex_of;
use dearest::{code_of, item};
use edge_search::first_edge;
use edges::{Edge, Step};
use kept::{Held, admit};
use least_rows::ROWS;
use totals::{paid, total};
use trellis::MOST_PATHS;

// What the edges of step t cost: the least costs that are left from each vertex of each depth, the prices of the symbols, and which step it
// is.
#[derive(Clone, Copy)]
pub struct Costs<'a> {
    pub rows: &'a [u32; ROWS],
    pub prices: &'a [u64],
    pub t: usize,
}

// The code of a beginning along an edge. What comes of the code alone stands apart, so that it is worked out once for all edges.
fn further_code(code: u32, e: Edge) -> u32
    requires { (e.symbol < most_q) × (e.to < most_words) }
    ensures { result ≡ further_code code (meant_edge e) }
{
    code / 67108864 * 67108864 + code % 16384 * 4 + (e.to as u32 * 65536 + e.symbol as u32)
}

// One beginning, for which so much is paid, along one edge of step t, unless it costs more than the limit.
fn keep_edge(
    costs: Costs,
    paid: u64,
    code: u32,
    e: Edge,
    limit: u64,
    k: usize,
    before: Held,
    items: &mut [u64; MOST_PATHS],
) -> Held
    requires { StepRoom k costs.t costs.rows.now costs.prices.now × (paid < 4294967296) × (e.symbol < most_q) × (e.to < most_words)
        × Kept k items.old before.count before.worst × (limit < unreached) }
    ensures { Streamed k before.count items.old
        (limited limit (candidate costs.entry.rows.now costs.entry.prices.now costs.entry.t paid code (meant_edge e)))
        items.new result.count result.worst }
{
    let cost = total(costs.rows, costs.prices, costs.t, paid, e);
    if cost > limit {
        return before;
    }
    admit(k, before, items, item(cost, further_code(code, e)))
}

// Item x along each edge of step t that leaves its vertex, within the limit.
fn keep_item(
    step: Step,
    each: usize,
    costs: Costs,
    x: u64,
    limit: u64,
    k: usize,
    before: Held,
    items: &mut [u64; MOST_PATHS],
) -> Held
    requires { StepEdges step.pairs.now step.symbols.now step.count × StepRoom k costs.t costs.rows.now costs.prices.now
        × Kept k items.old before.count before.worst × (each ≤ most_words) × (limit < unreached) }
    ensures { Streamed k before.count items.old (limited limit (candidates costs.entry.rows.now costs.entry.prices.now costs.entry.t
        (run (edge_in step.entry.pairs.now step.entry.symbols.now) 0 step.entry.count) x)) items.new result.count result.worst }
{
    let code = code_of(x);
    let vertex = vertex_of(code);
    let so_far = paid(costs.rows, costs.t, vertex, x);
    let mut held = before;
    for i in first_edge(step.pairs, step.count, each, vertex)..step.count {
        let e = step.edge_at(i);
        if e.from != vertex {
            return held;
        }
        held = keep_edge(costs, so_far, code, e, limit, k, held, items);
    }
    held
}

// The first `have` items one step further: of all that they become within the limit, the k best.
pub fn step_within(
    step: Step,
    each: usize,
    costs: Costs,
    old: &[u64; MOST_PATHS],
    have: usize,
    limit: u64,
    k: usize,
    items: &mut [u64; MOST_PATHS],
) -> Held
    requires { StepEdges step.pairs.now step.symbols.now step.count × StepRoom k costs.t costs.rows.now costs.prices.now × (have ≤ k)
        × (each ≤ most_words) × (limit < unreached) }
    ensures { Stepped k (limited limit (flat_map (candidates costs.entry.rows.now costs.entry.prices.now costs.entry.t
        (run (edge_in step.entry.pairs.now step.entry.symbols.now) 0 step.entry.count)) (take have old.now)))
        items.new result.count result.worst }
{
    let mut held = Held { count: 0, worst: 0 };
    for x in &old[..have] {
        held = keep_item(step, each, costs, *x, limit, k, held, items);
    }
    held
}
