// One block of a chain, whatever its symbols cost and wherever a path may end: from what is left to pay behind the block, state by state,
// to what is left to pay before it, over the edges of the block's section and never over its words; and for each state a note, with the
// label and the goal of the first word of least cost. Blocks are passed from the last to the first; the notes are followed in `traceback`.

#![tactic(auto)]

ghost use Rattle.std.specs.Prelude.{◌≡◌, ◌%◌, length};
ghost use Rattle.trellis.specs.Bounds.{most_states, most_words};
ghost use Rattle.trellis.specs.Layout.{n_of, vertex_count_of};
ghost use Rattle.paths.specs.Inner.Ranked.{PriceRoom};
ghost use Rattle.section_file.specs.Inner.View.{Seen};
ghost use Rattle.lowering.specs.Inner.Rows.{side};
ghost use Rattle.passes.specs.Inner.Blocks.{BlockPassed};
ghost use Rattle.passes.specs.Inner.Loops.{GoalsRanked, RootsAsked, RootsPut};

pub use ranks::{cost_of, goal_of};
use ranks::{note_of, ranked_left};
use section_file::Section;
use trellis::{COSTS_A_BLOCK, MOST_WORDS};

// No path, in a cost table: callers in C are given the table, so a place has a mark and no option.
pub const NO_PATH: u32 = 4294967295;

// The row of depth n: what it costs to end in each goal.
#[tactic(auto, using(crate::proofs::Ends::goal_read))]
fn put_goals(section: Section, left: &[u32; COSTS_A_BLOCK], row: &mut [u64; MOST_WORDS])
    requires { Seen section.numbers.now section.view }
    ensures { GoalsRanked section.entry.numbers.now left.now row.new
        (vertex_count_of section.entry.numbers.now (n_of section.entry.numbers.now)) }
{
    let l = section.numbers;
    let goals = section.view.goals;
    let count = section.view.pairs - goals;
    for g in 0..count {
        let s = usize::from(l[goals + g]);
        row[g] = ranked_left(left[s], s);
    }
}

// The same, in the array of depth n's parity.
pub fn put_goals_side(
    section: Section,
    left: &[u32; COSTS_A_BLOCK],
    even: &mut [u64; MOST_WORDS],
    odd: &mut [u64; MOST_WORDS],
)
    requires { Seen section.numbers.now section.view }
    ensures { GoalsRanked section.entry.numbers.now left.now
        (side (n_of section.entry.numbers.now) even.new odd.new)
        (vertex_count_of section.entry.numbers.now (n_of section.entry.numbers.now))
        × (length even.new ≡ most_words) × (length odd.new ≡ most_words) }
{
    if section.view.n % 2 == 0 {
        put_goals(section, left, even);
        return;
    }
    put_goals(section, left, odd);
}

// What is left to pay before the block, and the notes: at the states of the roots what the row of depth 0 has, and no path elsewhere.
#[tactic(auto, using(crate::proofs::Ends::root_read))]
fn put_roots(
    section: Section,
    row: &[u64; MOST_WORDS],
    left: &mut [u32; COSTS_A_BLOCK],
    notes: &mut [u32],
)
    requires { Seen section.numbers.now section.view × RootsAsked section.numbers.now row.now notes.old }
    ensures { RootsPut section.entry.numbers.now row.now left.new notes.new (vertex_count_of section.entry.numbers.now 0) }
{
    let l = section.numbers;
    *left = [NO_PATH; COSTS_A_BLOCK];
    notes.fill(NO_PATH);
    let roots = section.view.roots;
    let count = section.view.goals - roots;
    for v in 0..count {
        let s = usize::from(l[roots + v]);
        let rank = row[v];
        left[s] = cost_of(rank);
        notes[s] = note_of(rank);
    }
}

// One block backward. `left` has what is left to pay in each state behind the block, and then before it; `notes` gets the note of each
// state. The two rows are working room.
pub fn pass_block(
    section: Section,
    prices: &[u64],
    left: &mut [u32; COSTS_A_BLOCK],
    notes: &mut [u32],
    even: &mut [u64; MOST_WORDS],
    odd: &mut [u64; MOST_WORDS],
)
    requires { Seen section.numbers.now section.view × PriceRoom prices.now × (length notes.old ≡ most_states) }
    ensures { BlockPassed section.entry.numbers.now prices.now left.old left.new notes.new
        × (length even.new ≡ most_words) × (length odd.new ≡ most_words) }
{
    put_goals_side(section, left, even, odd);
    sweep::sweep(section, prices, even, odd);
    put_roots(section, even, left, notes);
}
