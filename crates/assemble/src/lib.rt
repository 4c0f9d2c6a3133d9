// The numbers of our section, one part behind another: its sizes, the end states, the edges of all steps.

#![tactic(auto)]

ghost use Rattle.std.specs.Prelude.{◌≡◌, [], ◌∷◌, ◌+◌, ◌*◌, ◌≤◌, length};
ghost use Rattle.trellis.specs.Bounds.{most_symbols};
ghost use Rattle.trellis.specs.Lists.{over};
ghost use Rattle.trellis.specs.Inner.Write.{Wrote};
ghost use Rattle.assemble.specs.Inner.Numbers.{first_numbers, size_numbers, SizesAsked, length_by, LengthAsked, numbers_of, Parts};

use layout::states;
pub use outer_depths::{Outer, OuterDepth, put_outer};
use takers::Edges;
use trellis::MOST_SYMBOLS;

// The first `count` numbers of an array, from place `at` on. One by one: of `copy_from_slice` between two lent buffers clang makes a call of
// memmove, which nothing else in the archive for C needs.
pub fn put_numbers(source: &[u16], count: usize, section: &mut [u16], at: usize) -> usize
    requires { (count ≤ length source.now) × (at + count ≤ length section.old) }
    ensures { Wrote section.old at (first_numbers source.now count) section.new result }
{
    for i in 0..count {
        section[at + i] = source[i];
    }
    at + count
}

// q, n and S.
fn put_header(q: u8, n: usize, states: u8, sizes: &mut [u16]) -> usize
    requires { (n ≤ most_symbols) × (3 ≤ length sizes.old) }
    ensures { Wrote sizes.old 0 (q ∷ n ∷ states ∷ []) sizes.new result }
{
    sizes[0] = u16::from(q);
    sizes[1] = n as u16;
    sizes[2] = u16::from(states);
    3
}

// The sizes that a section begins with: q, n and S, how many vertices each depth has, and how many edges each step.
pub fn put_sizes(
    q: u8,
    n: usize,
    states: u8,
    vertices: &[u16; MOST_SYMBOLS + 1],
    steps: &[u16; MOST_SYMBOLS],
    sizes: &mut [u16],
)
    requires { SizesAsked n vertices.now steps.now sizes.old }
    ensures { Wrote sizes.old 0 (size_numbers q n states vertices.now steps.now) sizes.new
        (4 + 2 * n) }
{
    let mut at = put_header(q, n, states, sizes);
    at = put_numbers(vertices, n + 1, sizes, at);
    put_numbers(steps, n, sizes, at);
}

// The section's length, from the counts.
pub fn section_length(n: usize, vertices: &[u16; MOST_SYMBOLS + 1], edges: usize) -> usize
    requires { LengthAsked n vertices.now edges }
    ensures { result ≡ length_by n vertices.now edges }
{
    4 + 2 * n + (usize::from(vertices[0]) + usize::from(vertices[n])) + 3 * edges
}

// The section's numbers in document 01's layout, from the front of the buffer on. `sizes` is what put_sizes left, `words` and `edges` what
// takers::take_edges left for the finished map.
pub fn put_section(
    sizes: &[u16],
    n: usize,
    outer: Outer,
    edges: Edges,
    words: &[u16],
    labels: &[u16],
    map: &[u16],
    section: &mut [u16],
)
    requires { Parts n sizes.now edges.counts outer.roots outer.goals map.now labels.now words.now section.old }
    ensures { section.new
        ≡ over (numbers_of n sizes.now outer.roots outer.goals map.now labels.now)
        section.old }
{
    let mut at = put_numbers(sizes, 4 + 2 * n, section, 0);
    at = states::put_states(&outer.roots, section, at);
    at = states::put_states(&outer.goals, section, at);
    at = layout::put_all_pairs(words, &edges.counts, n, labels, map, section, at);
    layout::put_all_symbols(words, &edges.counts, n, labels, map, section, at);
}
