// Generator rows looked at before anything is added up: their sizes and their number, the first that is too wide, and how many words and
// states they make.

#![tactic(auto)]

ghost use Rattle.std.specs.Prelude.{◌≡◌, ◌^◌, ◌≤◌, length, leb};
ghost use Rattle.trellis.specs.Lists.{found_below};
ghost use Rattle.rows.specs.Table.{sizes_fit, first_wide};

use numbers::is_within;
use trellis::{MOST_ROWS, MOST_STATE_BITS, MOST_SYMBOLS};

// Whether all sizes are within their bounds.
#[tactic(auto, unfolding(rows::specs::Table::sizes_fit))]
pub fn sizes_fit(bits: usize, n: usize, count: usize) -> bool
    ensures { result ≡ sizes_fit bits n count }
{
    is_within(0, MOST_STATE_BITS, bits)
        && is_within(1, MOST_SYMBOLS, n)
        && is_within(1, MOST_ROWS, count)
}

// Whether a row has bits above its width.
fn is_wide(row: u16, width: usize) -> bool
    requires { width ≤ 16 }
    ensures { result ≡ leb (2 ^ width) row }
{
    usize::from(row) >= 1 << width
}

// The first row that has.
pub fn first_wide(rows: &[u16], width: usize) -> Option<usize>
    requires { width ≤ 16 }
    ensures { result ≡ found_below (length rows.now) (first_wide width rows.now) }
{
    rows.iter().position(|&row| is_wide(row, width))
}

// 2 to the number of rows.
pub fn words_of(count: usize) -> usize
    requires { count ≤ 10 }
    ensures { (result ≡ 2 ^ count) × (result ≤ 1024) }
{
    1 << count
}

// 2 to the number of state bits.
pub fn states_of(bits: usize) -> u8
    requires { bits ≤ 4 }
    ensures { result ≡ 2 ^ bits }
{
    1 << bits
}
