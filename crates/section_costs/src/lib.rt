// Both costs of a section, its additions and its selections, by the counts in its sizes.

#![tactic(auto)]

ghost use Rattle.std.specs.Prelude.{◌≡◌, ◌*◌, ◌≤◌};
ghost use Rattle.trellis.specs.Selections.{additions, selections};
ghost use Rattle.trellis.specs.Layout.{n_of, vertex_count_of, edge_count_of};

use numbers::{number, total};

// Additions: the edges of all steps, by the counts in a section's sizes. Counts have 16 bits and there are at most 65,535 steps, so the sum
// has 32.
pub fn additions_of(sizes: &[u16]) -> usize
    ensures { (result ≡ additions (n_of sizes.now) (edge_count_of sizes.now)) × (result ≤ 65535 * 65535) }
{
    let n = usize::from(number(sizes, 1));
    total(sizes, 4 + n, n)
}

// Selections, by the same counts. They never come out below 0; `saturating_sub` spares this function the proof of it.
pub fn selections_of(sizes: &[u16]) -> usize
    ensures { (result ≡ selections (n_of sizes.now) (vertex_count_of sizes.now) (edge_count_of sizes.now))
        × (result ≤ 65535 * 65536) }
{
    let n = usize::from(number(sizes, 1));
    let vertices = total(sizes, 3, n + 1);
    let roots = usize::from(number(sizes, 3));
    (additions_of(sizes) + roots).saturating_sub(vertices)
}
