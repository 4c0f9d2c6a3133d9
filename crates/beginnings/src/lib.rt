// The k best beginnings between two blocks. They enter the section of a block at the roots of their states, and leave it at its goals, each
// with a back pointer, by which its words are found again.

#![tactic(auto)]

ghost use Rattle.std.specs.Prelude.{◌≡◌, ◌+◌, ◌*◌, ◌<◌, ◌≤◌, length};
ghost use Rattle.trellis.specs.Bounds.{most_paths, most_blocks, most_words};
ghost use Rattle.dearest.specs.Inner.Items.{code_in};
ghost use Rattle.codes.specs.Inner.Codes.{code, code_vertex};
ghost use Rattle.beginnings.specs.Inner.Trails.{back_long};
ghost use Rattle.beginnings.specs.Inner.Entering.{state_from, RootFound, HasRoot, EnteredOne, Enterable, AllEntered, Leavable};
ghost use Rattle.beginnings.specs.Inner.Entering.{Left};

use codes::{label_of, root_of, vertex_of};
use dearest::{code_of, cost_of, item};
use trellis::{MOST_BLOCKS, MOST_PATHS};

// The places of the back pointers.
pub const BACK: usize = MOST_PATHS * MOST_BLOCKS;

// A code from a place, a vertex or a state, and the symbols so far.
pub fn coded(place: usize, vertex: usize, label: u16) -> u32
    requires { (place < most_paths) × (vertex < most_words) }
    ensures { result ≡ code place vertex label }
{
    ((place * 1024 + vertex) as u32) * 65536 + (label as u32)
}

// The root of a state, or none where no root has it. Where all lower states are roots too, as with all states of a code, it has the
// state's own number, and that root is looked at first; elsewhere the root is searched for.
fn root_at(s: &[u16], roots: usize, count: usize, state: usize) -> Option<usize>
    requires { roots + count ≤ length s.now }
    ensures { RootFound s.now roots count state result }
{
    let states = &s[roots..roots + count];
    if state < count && usize::from(states[state]) == state {
        return Some(state);
    }
    states.iter().position(|own| usize::from(*own) == state)
}

// Slot x at place j becomes an item at the root of its state.
fn entered(s: &[u16], roots: usize, count: usize, j: usize, x: u64) -> u64
    requires { (roots + count ≤ length s.now) × (count ≤ most_words) × (j < most_paths)
        × HasRoot s.now roots count (code_vertex (code_in x)) }
    ensures { EnteredOne s.now roots count j x result }
{
    let Some(v) = root_at(s, roots, count, vertex_of(code_of(x))) else {
        unreachable!()
    };
    item(cost_of(x), coded(j, v, 0))
}

// The first `have` slots in front of a block enter its section.
pub fn enter(
    s: &[u16],
    roots: usize,
    count: usize,
    slots: &[u64; MOST_PATHS],
    have: usize,
    items: &mut [u64; MOST_PATHS],
)
    requires { (roots + count ≤ length s.now) × (count ≤ most_words) × (have ≤ most_paths) × (length slots.now ≡ most_paths)
        × (length items.old ≡ most_paths) × Enterable s.now roots count slots.now have }
    ensures { AllEntered s.now roots count slots.now items.new have }
{
    for j in 0..have {
        items[j] = entered(s, roots, count, j, slots[j]);
    }
}

// The first `count` items leave the section of block b: each becomes a slot in the state of its goal, and has its back pointer.
pub fn leave(
    s: &[u16],
    goals: usize,
    items: &[u64; MOST_PATHS],
    count: usize,
    b: usize,
    slots: &mut [u64; MOST_PATHS],
    back: &mut [u32; BACK],
)
    requires { (count ≤ most_paths) × (b < most_blocks) × (length items.now ≡ most_paths)
        × (length slots.old ≡ most_paths) × (length back.old ≡ back_long) × Leavable s.now goals items.now count }
    ensures { Left (state_from s.now goals) items.now b count slots.new back.old
        back.new }
{
    for j in 0..count {
        let x = items[j];
        let c = code_of(x);
        let state = usize::from(s[goals + vertex_of(c)]);
        slots[j] = item(cost_of(x), coded(j, state, 0));
        back[MOST_PATHS * b + j] = coded(root_of(c), state, label_of(c));
    }
}
