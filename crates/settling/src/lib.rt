// The notes of the cost table turned into costs, from the last block to the first: the costs behind a block are known, and a note has the
// remainder of the cost before it.

#![tactic(auto)]

ghost use Rattle.std.specs.Prelude.{◌≡◌, ◌*◌, length};
ghost use Rattle.trellis.specs.Bounds.{most_states};
ghost use Rattle.trellis.specs.Layout.{vertex_count_of};
ghost use Rattle.paths.specs.Inner.Ranked.{label_unit};
ghost use Rattle.section_file.specs.Inner.Sound.{Sound};
ghost use Rattle.settling.specs.Inner.Settled.{RowFits, RootsSettled, RowCopied, BlockSettled, Settling, Settled};

use passes::NO_PATH;
use settled::{GOALS, settled};
use trellis::{COSTS_A_BLOCK, MOST_SECTIONS};

// The costs of a block's roots. At every other state the note is that of no path, which is the cost too. Where the roots stand is read off
// the section itself, so that settling takes no views.
fn settle_roots(l: &[u16], behind: &[u32; GOALS], row: &mut [u32])
    requires { Sound l.now × RowFits behind.now row.old }
    ensures { RootsSettled l.now behind.now row.old row.new
        (vertex_count_of l.now 0) }
{
    let roots = 4 + 2 * usize::from(l[1]);
    let count = usize::from(l[3]);
    for v in 0..count {
        let s = usize::from(l[roots + v]);
        row[s] = settled(row[s], behind);
    }
}

fn copy_row(row: &[u32], place: &mut [u32; GOALS])
    requires { (length row.now ≡ most_states) × (length place.old ≡ label_unit) }
    ensures { RowCopied row.now place.old place.new most_states }
{
    place[..COSTS_A_BLOCK].copy_from_slice(row);
}

// One block: `behind` has the costs behind it, and then before it.
fn settle_block(l: &[u16], behind: &mut [u32; GOALS], row: &mut [u32])
    requires { Sound l.now × RowFits behind.old row.old }
    ensures { BlockSettled l.now behind.old row.old row.new behind.new }
{
    settle_roots(l, behind, row);
    copy_row(row, behind);
}

// Turns the notes that `fill` left into the costs.
pub fn settle(
    sections: &[u16],
    starts: &[usize; MOST_SECTIONS + 1],
    indices: &[u8],
    ends: [u32; COSTS_A_BLOCK],
    costs: &mut [u32],
)
    requires { Settling sections.now starts.now indices.now ends costs.old }
    ensures { Settled (length indices.now) ends costs.old costs.new }
{
    let mut behind = [NO_PATH; GOALS];
    copy_row(&ends, &mut behind);
    for b in (0..indices.len()).rev() {
        let i = usize::from(indices[b]);
        let start = starts[i];
        let row = COSTS_A_BLOCK * b;
        let next = row + COSTS_A_BLOCK;
        settle_block(&sections[start..], &mut behind, &mut costs[row..next]);
    }
}
