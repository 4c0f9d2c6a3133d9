// One depth of a sweep: a row cleared, and lowered over the edges of a step.

#![tactic(auto)]

ghost use Rattle.std.specs.Prelude.{◌≤◌};
ghost use Rattle.trellis.specs.Bounds.{most_words};
ghost use Rattle.paths.specs.Inner.Ranked.{top_rank};
ghost use Rattle.lowering.specs.Inner.Loops.{Cleared, StepAsked, Lowered};

use edges::Step;
use paths::TOP_RANK;
use trellis::MOST_WORDS;

// No path yet from the first vertices of a depth.
pub fn clear(count: usize, row: &mut [u64; MOST_WORDS])
    requires { count ≤ most_words }
    ensures { Cleared most_words top_rank row.new count }
{
    row[..count].fill(TOP_RANK);
}

// Lowers the row of a depth to the least that the edges of its step give: the price of an edge's symbol, and what the row behind has where
// the edge leads. No sum wraps, since both are at most TOP_RANK, and none above it stays, since the row has nothing above it.
#[tactic(auto, using(crate::proofs::Lowered::edge_fits))]
pub fn lower(step: Step, prices: &[u64], behind: &[u64; MOST_WORDS], row: &mut [u64; MOST_WORDS])
    requires { StepAsked step.pairs.now step.symbols.now step.count prices.now behind.now row.old }
    ensures { Lowered step.entry.pairs.now step.entry.symbols.now step.entry.count prices.now behind.now
        row.old row.new }
{
    for k in 0..step.count {
        let e = step.edge_at(k);
        row[e.from] = row[e.from].min(prices[e.symbol] + behind[e.to]);
    }
}
