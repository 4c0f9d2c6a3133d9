// An outer depth of the map of a table of sums: the vertex of a word is the number of its state among those that occur.

#![tactic(auto)]

ghost use Rattle.std.specs.Prelude.{◌≡◌, map, ◌≤◌, ◌<◌, length};
ghost use Rattle.trellis.specs.Lists.{rank};
ghost use Rattle.parity.specs.Inner.Front.{Front};
ghost use Rattle.row_states.specs.Inner.Outer.{roots_of, goals_of, OuterAsked, OuterPut};

use parity::{ROW_BITS, each_row, low_bits};
use row_sums::put_sums;

// The rows' bits before the last `behind`.
pub fn roots_of(rows: &[u16], behind: usize) -> [u16; ROW_BITS]
    requires { (length rows.now ≤ 10) × (behind < 16) }
    ensures { Front (roots_of behind rows.now) result }
{
    each_row(rows, |row| row >> behind)
}

// The rows' last `bits` bits.
pub fn goals_of(rows: &[u16], bits: usize) -> [u16; ROW_BITS]
    requires { (length rows.now ≤ 10) × (bits ≤ 4) }
    ensures { Front (goals_of bits rows.now) result }
{
    each_row(rows, |row| low_bits(row, bits))
}

// How many of the keys are below x.
fn keys_below(x: u16, keys: &[u16]) -> u16
    requires { length keys.now ≤ 1024 }
    ensures { result ≡ rank x keys.now }
{
    keys.iter().filter(|key| **key < x).count() as u16
}

// The numbers of the values among the keys.
fn ranks_of(values: &[u16], keys: &[u16]) -> [u16; ROW_BITS]
    requires { (length values.now ≤ 10) × (length keys.now ≤ 1024) }
    ensures { Front (map (λ x. rank x keys.now) values.now) result }
{
    each_row(values, |value| keys_below(value, keys))
}

// The states that occur, in ascending order, 2 to the dimension of them.
#[derive(Clone, Copy)]
pub struct Outer {
    pub keys: [u16; ROW_BITS],
    pub dim: usize,
}

// The vertices of all words at an outer depth, from `place` on, where the rows have these states there.
pub fn put_outer(values: &[u16], map: &mut [u16], place: usize) -> Outer
    requires { OuterAsked values.now map.old place }
    ensures { OuterPut values.now map.old place map.new result.keys result.dim }
{
    let columns = parity::check_all(values);
    let reduced = reduced_rows::reduced(&columns);
    let mut keys = [0u16; ROW_BITS];
    let count = put_sums(reduced.as_slice(), &mut keys, 0);
    let ranks = ranks_of(values, &keys[..count]);
    put_sums(&ranks[..values.len()], map, place);
    Outer {
        keys,
        dim: reduced.count,
    }
}
