// The pass over the blocks of a frame, from the last to the first. It leaves a note in each place of the cost table, by which the words of
// the best path are found. The blocks' sections are found and the frame is checked; where a path may end is the caller's.

#![tactic(auto)]

ghost use Rattle.std.specs.Prelude.{◌≡◌, ◌*◌, ◌<◌, ◌≤◌, length};
ghost use Rattle.trellis.specs.Bounds.{most_states, costs_a_block};
ghost use Rattle.section_file.specs.Inner.View.{Seen};
ghost use Rattle.cost_table.specs.Inner.Filled.{EndRow, Working, BlockFilled, held_blocks, Ready, Filled};

use block::put_prices;
use passes::{NO_PATH, pass_block};
use section_file::{Section, View};
use trellis::{COSTS_A_BLOCK, MOST_Q, MOST_SECTIONS, MOST_SYMBOLS, MOST_WORDS};

// Nothing is left to pay in the end state, and there is no path from any other.
pub fn ends_in(end: usize) -> [u32; COSTS_A_BLOCK]
    requires { end < most_states }
    ensures { EndRow end result }
{
    let mut ends = [NO_PATH; COSTS_A_BLOCK];
    ends[end] = 0;
    ends
}

// One block: `left` has what is left to pay behind it, and then before it; `notes` gets its notes. The prices and the two rows are working
// room.
fn fill_block(
    section: Section,
    received: u16,
    mask: u8,
    left: &mut [u32; COSTS_A_BLOCK],
    notes: &mut [u32],
    prices: &mut [u64; MOST_Q * MOST_SYMBOLS],
    even: &mut [u64; MOST_WORDS],
    odd: &mut [u64; MOST_WORDS],
)
    requires { Seen section.numbers.now section.view × (length notes.old ≡ most_states) × Working left.old prices.old even.old odd.old }
    ensures { BlockFilled section.entry.numbers.now received mask left.old left.new notes.new
        × Working left.new prices.new even.new odd.new }
{
    put_prices(section.view.n, received, mask, prices);
    pass_block(section, prices, left, notes, even, odd);
}

// `ends` has what is left to pay behind the last block: nothing in a state where a path may end. The notes go to the cost table, and what
// is left to pay before the first block is the answer.
pub fn fill(
    sections: &[u16],
    starts: &[usize; MOST_SECTIONS + 1],
    views: &[View; MOST_SECTIONS],
    indices: &[u8],
    received: &[u16],
    erased: &[u8],
    ends: [u32; COSTS_A_BLOCK],
    costs: &mut [u32],
) -> [u32; COSTS_A_BLOCK]
    requires { Ready (held_blocks sections.now starts.now views.now indices.now received.now erased.now)
        × (length ends ≡ most_states) × (costs_a_block * length indices.now ≤ length costs.old) }
    ensures { Filled (held_blocks sections.now starts.now views.now indices.now received.now
        erased.now) ends result costs.old costs.new }
{
    let mut left = ends;
    let mut prices = [0u64; MOST_Q * MOST_SYMBOLS];
    let mut even = [0u64; MOST_WORDS];
    let mut odd = [0u64; MOST_WORDS];
    for b in (0..indices.len()).rev() {
        let i = usize::from(indices[b]);
        let view = views[i];
        let start = starts[i];
        let word = received[b];
        let mask = erased[b];
        let numbers = &sections[start..];
        let section = Section { numbers, view };
        let first = COSTS_A_BLOCK * b;
        let next = first + COSTS_A_BLOCK;
        fill_block(
            section,
            word,
            mask,
            &mut left,
            &mut costs[first..next],
            &mut prices,
            &mut even,
            &mut odd,
        );
    }
    left
}
