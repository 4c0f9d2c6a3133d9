// What merging a table leaves, as definitions, and its last stage, where the inner depths are in the map: the outer depths, the edges, the
// sizes and the section.

#![tactic(auto)]

ghost use Rattle.std.specs.Prelude.{◌+◌, ◌*◌, ◌<◌, ◌≤◌, length};
ghost use Rattle.trellis.specs.Lists.{over};
ghost use Rattle.depths.specs.Inner.Words.{words};
ghost use Rattle.merging.specs.Merging.{written};
ghost use Rattle.merging.specs.Inner.Stages.{Inside};
ghost use Rattle.merging.specs.Inner.Sizes.{any_sizes, section_sizes, EndsSized};

use answers::merge::{MergeRefusal, Merged};
use depths::TableWords;
use trellis::{MOST_SYMBOLS, MOST_WORDS};

// As long as the sizes of any section: q, n and S, and the counts of vertices and edges.
pub const ANY_SIZES: usize = 4 + 2 * MOST_SYMBOLS;

// The outer depths, the edges, the sizes and the section, where the inner depths are in the map: success, or refusal 7.
pub fn finish(
    q: u8,
    states: u8,
    table: TableWords,
    inner: [u16; MOST_SYMBOLS + 1],
    map: &mut [u16],
    section: &mut [u16],
    sizes: &mut [u16],
) -> Merged
    requires { Inside table.n table.roots.now table.labels.now table.goals.now map.old inner × (any_sizes ≤ length sizes.old) }
    ensures { EndsSized
        (written q table.entry.n states (words table.entry.roots.now table.entry.labels.now table.entry.goals.now) map.old
        section.old)
        (over (section_sizes q table.entry.n states (words table.entry.roots.now table.entry.labels.now table.entry.goals.now)) sizes.old) result
        map.new section.new sizes.new }
{
    let n = table.n;
    let outer = outer_depths::put_outer(table.roots, table.goals, n, map, inner);
    let mut firsts = [0u16; MOST_SYMBOLS * MOST_WORDS];
    let edges = takers::take_edges(table.labels, n, map, &mut firsts);
    let vertices = outer.counts;
    let steps = edges.counts;
    assemble::put_sizes(q, n, states, &vertices, &steps, sizes);
    let needed = assemble::section_length(n, &vertices, edges.total);
    if section.len() < needed {
        return Err(MergeRefusal::ShortSection(needed));
    }
    assemble::put_section(sizes, n, outer, edges, &firsts, table.labels, map, section);
    Ok(needed)
}
