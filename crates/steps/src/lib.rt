// The k best beginnings through one section, step by step over its edges: each goes on along every edge that leaves its vertex, and of all
// that come the k are kept that cost least in the end, in the order in which they came, which is word order.

#![tactic(auto)]

ghost use Rattle.std.specs.Prelude.{◌<◌, ◌≤◌};
ghost use Rattle.trellis.specs.Bounds.{most_paths};
ghost use Rattle.trellis.specs.Layout.{n_of, step_edges};
ghost use Rattle.paths.specs.Chain.{unreached};
ghost use Rattle.paths.specs.Inner.Ranked.{PriceRoom};
ghost use Rattle.section_file.specs.Inner.View.{Seen};
ghost use Rattle.one_step.specs.Inner.Loops.{Gone};

use edge_search::edges_each;
use edges::Step;
use least_rows::ROWS;
use one_step::Costs;
use section_file::Section;
pub use step_limits::NONE_ABOVE;
use step_limits::{keep_step, limit_of};
use trellis::MOST_PATHS;

// How many items are kept, and the limit for what comes next.
#[derive(Clone, Copy)]
pub struct Grown {
    pub count: usize,
    pub limit: u64,
}

// From depth 0 to depth n of a section: the k best at each depth. Any limit will do for the first step.
pub fn keep_section(
    section: Section,
    rows: &[u32; ROWS],
    prices: &[u64],
    have: usize,
    limit: u64,
    k: usize,
    items: &mut [u64; MOST_PATHS],
) -> Grown
    requires { Seen section.numbers.now section.view × (0 < k) × (k ≤ most_paths) × (have ≤ k) × PriceRoom prices.now
        × (limit < unreached) }
    ensures { Gone (step_edges section.entry.numbers.now) rows.now prices.now k (n_of section.entry.numbers.now) have
        items.old items.new result.count × (result.limit < unreached) }
{
    let l = section.numbers;
    let at = section.view;
    let n = at.n;
    let mut grown = Grown { count: have, limit };
    let mut pairs = at.pairs;
    let mut symbols = at.symbols;
    for t in 0..n {
        let old = *items;
        let count = usize::from(l[4 + n + t]);
        let step = Step {
            pairs: &l[pairs..],
            symbols: &l[symbols..],
            count,
        };
        let each = edges_each(l, t, count);
        let costs = Costs { rows, prices, t };
        let held = keep_step(step, each, costs, &old, grown.count, grown.limit, k, items);
        grown = Grown {
            count: held.count,
            limit: limit_of(items, k, held),
        };
        pairs += 2 * count;
        symbols += count;
    }
    grown
}
