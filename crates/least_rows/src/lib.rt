// The least costs from all vertices of a block's section to the end of the chain, depth after depth in one array: the sweep that passing a
// block makes, with a row kept for each depth.

#![tactic(auto)]

ghost use Rattle.std.specs.Prelude.{◌≡◌, length};
ghost use Rattle.trellis.specs.Bounds.{most_words};
ghost use Rattle.paths.specs.Inner.Ranked.{PriceRoom};
ghost use Rattle.section_file.specs.Inner.View.{Seen};
ghost use Rattle.lowering.specs.Inner.Rows.{side};
ghost use Rattle.least_rows.specs.Inner.Rows.{SaveAsked, RowSaved, RowsPut};

use passes::put_goals_side;
use ranks::cost_of;
use section_file::Section;
use sweep::lower_side;
use trellis::{COSTS_A_BLOCK, MOST_SYMBOLS, MOST_WORDS};

// The places of the rows, one row for each depth.
pub const ROWS: usize = (MOST_SYMBOLS + 1) * MOST_WORDS;

// The distances of the first `count` ranks of a row, kept as the row of depth t.
fn save_row(row: &[u64; MOST_WORDS], count: usize, t: usize, rows: &mut [u32; ROWS])
    requires { SaveAsked t count row.now rows.old }
    ensures { RowSaved t row.now rows.old rows.new count }
{
    let first = MOST_WORDS * t;
    for v in 0..count {
        rows[first + v] = cost_of(row[v]);
    }
}

// The same, where the rows of even depths stand in one array and those of odd depths in the other.
fn save_side(
    even: &[u64; MOST_WORDS],
    odd: &[u64; MOST_WORDS],
    count: usize,
    t: usize,
    rows: &mut [u32; ROWS],
)
    requires { SaveAsked t count (side t even.now odd.now) rows.old }
    ensures { RowSaved t (side t even.now odd.now) rows.old rows.new count }
{
    if t % 2 == 0 {
        save_row(even, count, t, rows);
        return;
    }
    save_row(odd, count, t, rows);
}

// From what is left to pay behind the block, state by state, to the least costs from all vertices. The two rows are working room.
#[tactic(auto, using(section_file::proofs::Seen::header))]
pub fn put_rows(
    section: Section,
    left: &[u32; COSTS_A_BLOCK],
    prices: &[u64],
    even: &mut [u64; MOST_WORDS],
    odd: &mut [u64; MOST_WORDS],
    rows: &mut [u32; ROWS],
)
    requires { Seen section.numbers.now section.view × PriceRoom prices.now }
    ensures { RowsPut section.entry.numbers.now prices.now left.now rows.new
        × (length even.new ≡ most_words) × (length odd.new ≡ most_words) }
{
    let l = section.numbers;
    let at = section.view;
    put_goals_side(section, left, even, odd);
    let n = at.n;
    let mut before = at.edges;
    save_side(even, odd, at.pairs - at.goals, n, rows);
    for t in (0..n).rev() {
        before -= usize::from(l[4 + n + t]);
        lower_side(section, t, before, prices, even, odd);
        save_side(even, odd, usize::from(l[3 + t]), t, rows);
    }
}
