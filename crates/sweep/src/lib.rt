// The least costs of one section, over its edges and never over its words: depth by depth from the last to the first, the least cost from
// each vertex. Only two rows are kept, one for the even depths and one for the odd. What a symbol costs and what it costs to end in a
// vertex are the caller's.

#![tactic(auto)]

ghost use Rattle.std.specs.Prelude.{◌≡◌, suc, ◌+◌, ◌*◌, length};
ghost use Rattle.trellis.specs.Bounds.{most_words};
ghost use Rattle.section_file.specs.Inner.View.{Seen};
ghost use Rattle.lowering.specs.Inner.Rows.{SweepAsked, Swept, side};
ghost use Rattle.lowering.specs.Inner.Loops.{RowAsked, RowDone};

use edges::Step;
use lowering::{clear, lower};
use section_file::Section;
use trellis::MOST_WORDS;

// The row of depth t from the row behind it. The edges of the step begin behind the `before` edges of the steps before it.
#[tactic(auto, using(crate::proofs::Sweeping::near_by))]
fn lower_depth(
    section: Section,
    t: usize,
    before: usize,
    prices: &[u64],
    behind: &[u64; MOST_WORDS],
    row: &mut [u64; MOST_WORDS],
)
    requires { Seen section.numbers.now section.view × RowAsked section.numbers.now t before prices.now behind.now row.old }
    ensures { RowDone section.entry.numbers.now t prices.now behind.now row.new }
{
    let l = section.numbers;
    let at = section.view;
    let pairs = at.pairs + 2 * before;
    let symbols = at.symbols + before;
    let first = 4 * t;
    clear(usize::from(l[3 + t]), row);
    let step = Step {
        pairs: &l[pairs..],
        symbols: &l[symbols..],
        count: usize::from(l[4 + at.n + t]),
    };
    lower(step, &prices[first..], behind, row);
}

// The same, where the rows of even depths stand in one array and those of odd depths in the other.
pub fn lower_side(
    section: Section,
    t: usize,
    before: usize,
    prices: &[u64],
    even: &mut [u64; MOST_WORDS],
    odd: &mut [u64; MOST_WORDS],
)
    requires { Seen section.numbers.now section.view
        × RowAsked section.numbers.now t before prices.now (side (suc t) even.old odd.old) (side t even.old odd.old) }
    ensures { RowDone section.entry.numbers.now t prices.now (side (suc t) even.old odd.old)
        (side t even.new odd.new)
        × (length even.new ≡ most_words) × (length odd.new ≡ most_words) }
{
    if t % 2 == 0 {
        lower_depth(section, t, before, prices, odd, even);
        return;
    }
    lower_depth(section, t, before, prices, even, odd);
}

// From the row of depth n to the row of depth 0, which is left in `even`.
#[tactic(auto, using(section_file::proofs::Seen::header))]
pub fn sweep(
    section: Section,
    prices: &[u64],
    even: &mut [u64; MOST_WORDS],
    odd: &mut [u64; MOST_WORDS],
)
    requires { Seen section.numbers.now section.view × SweepAsked section.numbers.now prices.now even.old odd.old }
    ensures { Swept section.entry.numbers.now prices.now even.old odd.old even.new
        odd.new }
{
    let l = section.numbers;
    let n = section.view.n;
    let mut before = section.view.edges;
    for t in (0..n).rev() {
        before -= usize::from(l[4 + n + t]);
        lower_side(section, t, before, prices, even, odd);
    }
}
