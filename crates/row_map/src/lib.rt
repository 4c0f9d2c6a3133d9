// The map of a table of sums, row by row: the inner depths by `row_depth`, the outer ones by `row_states`. Word i is the sum of the reduced
// rows that the bits of i choose, so a depth's vertices of twice as many words are those of the first half with one number added: the
// vertex of the new row.

#![tactic(auto)]

ghost use Rattle.std.specs.Prelude.{ℕ, ◌≤◌, get_or};
ghost use Rattle.row_map.specs.Inner.Maps.{MapAsked, InnerPut, CountsOf, MapPut};

use parity::ROW_BITS;
use trellis::MOST_SYMBOLS;

// The vertices of all inner depths into the map, that of depth t from place t * w on; gives the depths' dimensions.
fn put_inner(
    columns: &[u16; ROW_BITS],
    rows: &[u16],
    w: usize,
    bits: usize,
    n: usize,
    map: &mut [u16],
) -> [usize; MOST_SYMBOLS + 1]
    requires { MapAsked bits n rows.now columns.now w map.old }
    ensures { InnerPut bits n rows.now columns.now w map.old map.new result n }
{
    let mut dims = [0usize; MOST_SYMBOLS + 1];
    for t in 1..n {
        dims[t] = row_depth::put_depth(columns, rows, n - t + bits, map, t * w);
    }
    dims
}

// How many vertices the depths have.
fn counts_of(dims: &[usize; MOST_SYMBOLS + 1]) -> [u16; MOST_SYMBOLS + 1]
    requires { (t : ℕ) → get_or dims.now t 0 ≤ 10 }
    ensures { CountsOf dims.now result }
{
    let mut counts = [0u16; MOST_SYMBOLS + 1];
    for (t, &dim) in dims.iter().enumerate() {
        counts[t] = 1 << dim;
    }
    counts
}

// What is known of the depths: their dimensions, how many vertices they have, and the states of the outer ones.
#[derive(Clone, Copy)]
pub struct Depths {
    pub dims: [usize; MOST_SYMBOLS + 1],
    pub counts: [u16; MOST_SYMBOLS + 1],
    pub roots: [u16; ROW_BITS],
    pub goals: [u16; ROW_BITS],
}

// The map of the table of all sums of reduced rows, whose parity check is lent; w is the number of words.
pub fn put_map(
    columns: &[u16; ROW_BITS],
    rows: &[u16],
    w: usize,
    bits: usize,
    n: usize,
    map: &mut [u16],
) -> Depths
    requires { MapAsked bits n rows.now columns.now w map.old }
    ensures { MapPut bits n rows.now w map.old map.new result.dims result.counts result.roots
        result.goals }
{
    let mut dims = put_inner(columns, rows, w, bits, n, map);
    let roots = row_states::roots_of(rows, n + bits);
    let first = row_states::put_outer(&roots[..rows.len()], map, 0);
    let goals = row_states::goals_of(rows, bits);
    let last = row_states::put_outer(&goals[..rows.len()], map, n * w);
    let root_states = first.keys;
    let goal_states = last.keys;
    dims[0] = first.dim;
    dims[n] = last.dim;
    let counts = counts_of(&dims);
    Depths {
        dims,
        counts,
        roots: root_states,
        goals: goal_states,
    }
}
