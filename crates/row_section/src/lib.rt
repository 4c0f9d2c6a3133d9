// The section's numbers in document 01's layout, from the parts that the reduced rows give.

#![tactic(auto)]

ghost use Rattle.std.specs.Prelude.{◌≡◌, ◌*◌, ◌+◌};
ghost use Rattle.trellis.specs.Lists.{over};
ghost use Rattle.row_section.specs.Inner.Parts.{numbers_by, PartsAsked};

use row_checks::states_of;
use row_map::Depths;
use takers::Edges;

// The section's numbers in document 01's layout, from the front of the buffer on. `numbers` is what row_arcs::take_edges left.
pub fn put_section(
    bits: usize,
    n: usize,
    depths: Depths,
    edges: Edges,
    numbers: &[u16],
    section: &mut [u16],
)
    requires { PartsAsked bits n depths.dims depths.counts edges.counts depths.roots depths.goals numbers.now
        section.old }
    ensures { section.new
        ≡ over (numbers_by bits n depths.dims depths.counts edges.counts depths.roots depths.goals numbers.now)
        section.old }
{
    let Depths {
        dims,
        counts,
        roots,
        goals,
    } = depths;
    let steps = edges.counts;
    assemble::put_sizes(2, n, states_of(bits), &counts, &steps, section);
    let mut at = assemble::put_numbers(&roots, usize::from(counts[0]), section, 4 + 2 * n);
    at = assemble::put_numbers(&goals, usize::from(counts[n]), section, at);
    at = row_edges::put_all_pairs(numbers, &steps, n, &dims, section, at);
    row_edges::put_all_symbols(numbers, &steps, n, &dims, section, at);
}
