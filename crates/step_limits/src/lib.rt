// One step made with a limit first, and again without where fewer than k are within it.

#![tactic(auto)]

ghost use Rattle.std.specs.Prelude.{◌≡◌, ◌<◌, ◌≤◌, take};
ghost use mathlib.Core.List.{flat_map};
ghost use Rattle.trellis.specs.Bounds.{most_paths, most_words};
ghost use Rattle.trellis.specs.Lists.{run};
ghost use Rattle.paths.specs.Chain.{unreached};
ghost use Rattle.dearest.specs.Inner.Items.{Kept};
ghost use Rattle.edges.specs.Inner.Edges.{edge_in};
ghost use Rattle.whole_section.specs.Inner.StepAt.{StepEdges};
ghost use Rattle.one_step.specs.Inner.Steps.{candidates};
ghost use Rattle.one_step.specs.Inner.Loops.{StepRoom, is_enough, Stepped};

use dearest::cost_of;
use edges::Step;
use kept::Held;
use one_step::{Costs, step_within};
use passes::NO_PATH;
use trellis::MOST_PATHS;

// A limit that leaves nothing out: what has a path costs less than the mark for none.
pub const NONE_ABOVE: u64 = NO_PATH as u64 - 1;

// Whether nothing that a limit left out can be among the k best: k are kept within it, or it leaves nothing out.
#[tactic(auto, unfolding(one_step::specs::Inner::Loops::is_enough))]
fn is_enough(count: usize, k: usize, limit: u64) -> bool
    ensures { result ≡ is_enough count k limit }
{
    count == k || limit == NONE_ABOVE
}

// The first `have` items one step further: the k best of all that they become. They are looked for within the limit first. Where k items
// came in and it is the cost of the dearest, k are found, for each goes on along some edge at its own cost.
pub fn keep_step(
    step: Step,
    each: usize,
    costs: Costs,
    old: &[u64; MOST_PATHS],
    have: usize,
    limit: u64,
    k: usize,
    items: &mut [u64; MOST_PATHS],
) -> Held
    requires { StepEdges step.pairs.now step.symbols.now step.count × StepRoom k costs.t costs.rows.now costs.prices.now × (have ≤ k)
        × (each ≤ most_words) × (limit < unreached) }
    ensures { Stepped k (flat_map (candidates costs.entry.rows.now costs.entry.prices.now costs.entry.t
        (run (edge_in step.entry.pairs.now step.entry.symbols.now) 0 step.entry.count)) (take have old.now))
        items.new result.count result.worst }
{
    let held = step_within(step, each, costs, old, have, limit, k, items);
    if is_enough(held.count, k, limit) {
        return held;
    }
    step_within(step, each, costs, old, have, NONE_ABOVE, k, items)
}

// The limit of the next step: where k items are kept, what the dearest of them costs.
#[tactic(auto, using(kept::proofs::Admitting::worst_inside))]
pub fn limit_of(items: &[u64; MOST_PATHS], k: usize, held: Held) -> u64
    requires { Kept k items.now held.count held.worst × (k ≤ most_paths) }
    ensures { result < unreached }
{
    if held.count < k {
        return NONE_ABOVE;
    }
    cost_of(items[held.worst]).min(NONE_ABOVE)
}
