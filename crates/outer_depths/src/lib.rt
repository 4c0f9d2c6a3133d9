// The outer depths of the map, and the vertex counts of all depths.

#![tactic(auto)]

ghost use Rattle.std.specs.Prelude.{◌+◌, ◌*◌, ◌≤◌, length};
ghost use Rattle.layout.specs.Inner.States.{Few};
ghost use Rattle.outer_depths.specs.Inner.Outer.{OuterAsked, RowPut, OuterPut};

use layout::states;
use trellis::{MOST_STATES, MOST_SYMBOLS};

// What is known of an outer depth: its states as marks, and how many there are.
#[derive(Clone, Copy)]
pub struct OuterDepth {
    pub marks: [u8; MOST_STATES],
    pub count: u16,
}

// The vertices of an outer depth into the map, from place `place` on.
fn put_depth(words: &[u8], map: &mut [u16], place: usize) -> OuterDepth
    requires { Few words.now × (place + length words.now ≤ length map.old) }
    ensures { RowPut words.now map.old place map.new result.marks result.count }
{
    let marks = states::mark(words);
    let numbers = states::number(&marks);
    states::put_row(words, &numbers.ranks, map, place);
    OuterDepth {
        marks,
        count: numbers.count,
    }
}

// Both outer depths, and the vertex counts of all depths.
#[derive(Clone, Copy)]
pub struct Outer {
    pub roots: [u8; MOST_STATES],
    pub goals: [u8; MOST_STATES],
    pub counts: [u16; MOST_SYMBOLS + 1],
}

// The rows of depth 0 and depth n into the map; `inner` has the vertex counts of the inner depths.
pub fn put_outer(
    roots: &[u8],
    goals: &[u8],
    n: usize,
    map: &mut [u16],
    inner: [u16; MOST_SYMBOLS + 1],
) -> Outer
    requires { OuterAsked roots.now goals.now n map.old inner }
    ensures { OuterPut roots.now goals.now n map.old map.new inner result.roots result.goals
        result.counts }
{
    let first = put_depth(roots, map, 0);
    let last = put_depth(goals, map, n * roots.len());
    let root_marks = first.marks;
    let goal_marks = last.marks;
    let mut counts = inner;
    counts[0] = first.count;
    counts[n] = last.count;
    Outer {
        roots: root_marks,
        goals: goal_marks,
        counts,
    }
}
