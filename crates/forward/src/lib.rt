// The forward pass for the k best paths of a frame: block by block, the k best beginnings in word order. What is left to pay behind a block
// comes from the cost table; inside a block its section is swept once more, and the least costs from all its vertices are kept.

#![tactic(auto)]

ghost use Rattle.std.specs.Prelude.{◌≡◌, ◌+◌, ◌*◌, ◌<◌, ◌≤◌, length};
ghost use Rattle.trellis.specs.Bounds.{most_paths, most_states, most_blocks};
ghost use Rattle.trellis.specs.Layout.{vertex_count_of, roots_place};
ghost use Rattle.paths.specs.Chain.{unreached};
ghost use Rattle.section_file.specs.Inner.View.{Seen};
ghost use Rattle.beginnings.specs.Inner.Entering.{Enterable};
ghost use Rattle.beginnings.specs.Inner.Trails.{back_long, NotedWell};
ghost use Rattle.frame.specs.Frame.{frame};
ghost use Rattle.frame.specs.Inner.Checked.{Checked};
ghost use Rattle.forward.specs.Inner.Blocks.{Workspace, Passable, Passed};
ghost use Rattle.forward.specs.Inner.Fronts.{Tabled, KeptAt};

use beginnings::{BACK, coded, enter, leave};
use block::put_prices;
use cost_table::ends_in;
use dearest::item;
use least_rows::{ROWS, put_rows};
use left_behind::left_behind;
use section_file::{Section, View};
use step_limits::NONE_ABOVE;
use steps::{Grown, keep_section};
use trellis::{COSTS_A_BLOCK, MOST_PATHS, MOST_Q, MOST_SECTIONS, MOST_SYMBOLS, MOST_WORDS};

// The first `have` slots in front of block b, through its section, to those behind it. Any limit will do; a good one saves work. The last
// arrays are working room.
fn through_block(
    section: Section,
    received: u16,
    mask: u8,
    left: &[u32; COSTS_A_BLOCK],
    b: usize,
    k: usize,
    have: usize,
    limit: u64,
    slots: &mut [u64; MOST_PATHS],
    back: &mut [u32; BACK],
    prices: &mut [u64; MOST_Q * MOST_SYMBOLS],
    even: &mut [u64; MOST_WORDS],
    odd: &mut [u64; MOST_WORDS],
    rows: &mut [u32; ROWS],
    items: &mut [u64; MOST_PATHS],
) -> Grown
    requires { Seen section.numbers.now section.view × (length left.now ≡ most_states) × (b < most_blocks) × (0 < k) × (k ≤ most_paths) × (have ≤ k)
        × (limit < unreached) × (length slots.old ≡ most_paths) × (length back.old ≡ back_long)
        × Workspace prices.old even.old odd.old rows.old items.old
        × Enterable section.numbers.now (roots_place section.numbers.now) (vertex_count_of section.numbers.now 0) slots.old have
        × Passable section.numbers.now received mask left.now k have slots.old }
    ensures { Passed section.entry.numbers.now received mask left.now b k have slots.old back.old
        slots.new back.new result.count
        × (result.limit < unreached)
        × Workspace prices.new even.new odd.new rows.new items.new }
{
    let l = section.numbers;
    let at = section.view;
    put_prices(at.n, received, mask, prices);
    put_rows(section, left, prices, even, odd, rows);
    enter(l, at.roots, at.goals - at.roots, slots, have, items);
    let grown = keep_section(section, rows, prices, have, limit, k, items);
    leave(l, at.goals, items, grown.count, b, slots, back);
    grown
}

// All blocks of a checked frame that has a path and its cost table: how many beginnings are kept in the end, in word order; the slots have
// their distances, and the back pointers their words. K plays no part here.
pub fn keep_blocks(
    sections: &[u16],
    starts: &[usize; MOST_SECTIONS + 1],
    views: &[View; MOST_SECTIONS],
    indices: &[u8],
    received: &[u16],
    erased: &[u8],
    start: u8,
    end: u8,
    costs: &[u32],
    k: usize,
    slots: &mut [u64; MOST_PATHS],
    back: &mut [u32; BACK],
) -> usize
    requires { Checked sections.now starts.now views.now indices.now received.now erased.now start end
        × Tabled (frame sections.now 0 indices.now received.now erased.now start end) costs.now
        × (0 < k) × (k ≤ most_paths) × (length slots.old ≡ most_paths) × NotedWell back.old }
    ensures { KeptAt (frame sections.now 0 indices.now received.now erased.now start end)
        k (length indices.now) result slots.new back.new }
{
    let from = usize::from(start);
    let ends = ends_in(usize::from(end));
    slots[0] = item(costs[from] as u64, coded(0, from, 0));
    let mut prices = [0u64; MOST_Q * MOST_SYMBOLS];
    let mut even = [0u64; MOST_WORDS];
    let mut odd = [0u64; MOST_WORDS];
    let mut rows = [0u32; ROWS];
    let mut items = [0u64; MOST_PATHS];
    let limit = NONE_ABOVE;
    let mut grown = Grown { count: 1, limit };
    for b in 0..indices.len() {
        let i = usize::from(indices[b]);
        let view = views[i];
        let first = starts[i];
        let numbers = &sections[first..];
        let section = Section { numbers, view };
        let word = received[b];
        let mask = erased[b];
        let left = left_behind(costs, ends, indices.len(), b);
        grown = through_block(
            section,
            word,
            mask,
            &left,
            b,
            k,
            grown.count,
            grown.limit,
            slots,
            back,
            &mut prices,
            &mut even,
            &mut odd,
            &mut rows,
            &mut items,
        );
    }
    grown.count
}
