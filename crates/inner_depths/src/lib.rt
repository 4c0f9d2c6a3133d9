// Rectangularity and vertex numbers of the inner depths of a table, from the deepest to the first. Promised: the answer is none exactly if
// the table is rectangular, and then the map has the vertex of every word at every inner depth; else it is the smallest depth at which the
// table is not.

#![tactic(auto)]

ghost use Rattle.depths.specs.Inner.Words.{words};
ghost use Rattle.depths.specs.Inner.Merge.{Inner, InnerDone};

use depths::{TableWords, merge_depth, put_goals};
use trellis::{MOST_SYMBOLS, MOST_WORDS};

// The vertices of every inner depth into the map, and into counts how many there are. Gives the smallest depth at which the table is not
// rectangular, if there is one.
pub fn merge_inner(
    table: TableWords,
    map: &mut [u16],
    counts: &mut [u16; MOST_SYMBOLS + 1],
) -> Option<usize>
    requires { Inner table.n table.roots.now table.labels.now table.goals.now map.old counts.old }
    ensures { InnerDone table.entry.n (words table.entry.roots.now table.entry.labels.now table.entry.goals.now) map.old
        map.new counts.old counts.new result }
{
    let mut row = [0u16; MOST_WORDS];
    put_goals(table.goals, &mut row);
    let mut refused = None;
    for t in (1..table.n).rev() {
        match merge_depth(table, t, &mut row, map) {
            Some(count) => counts[t] = count,
            None => refused = Some(t),
        }
    }
    refused
}
