// The labels of rows, two bits a symbol.

#![tactic(auto)]

ghost use Rattle.std.specs.Prelude.{◌≡◌, ◌+◌, ◌*◌, ◌≤◌, length};
ghost use Rattle.rows.specs.Table.{spread};
ghost use Rattle.parity.specs.Inner.Front.{Front};
ghost use Rattle.row_labels.specs.Inner.Labels.{labels_of};

use parity::{ROW_BITS, each_row};

// The last n bits of x as a packed label of n symbols.
fn spread_bits(x: u16, n: usize) -> u16
    requires { n ≤ 8 }
    ensures { result ≡ spread n x }
{
    let mut label: u16 = 0;
    for left in (0..n).rev() {
        label = 4 * label + ((x >> left) & 1);
    }
    label
}

// The labels of the rows.
pub fn labels_of(rows: &[u16], bits: usize, n: usize) -> [u16; ROW_BITS]
    requires { (length rows.now ≤ 10) × (bits ≤ 4) × (n ≤ 8) }
    ensures { Front (labels_of bits n rows.now) result }
{
    each_row(rows, |row| spread_bits(row >> bits, n))
}
