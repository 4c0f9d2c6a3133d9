// The reduced rows of a parity check, read off its columns.

#![tactic(auto)]

ghost use Rattle.std.specs.Prelude.{◌≡◌, ◌≤◌, length, take};
ghost use Rattle.parity.specs.Inner.Steps.{Basis};

use parity::{POWERS, ROW_BITS};

// The reduced rows of a check, by ascending pivot, and how many they are.
#[derive(Clone, Copy)]
pub struct Rows {
    pub rows: [u16; ROW_BITS],
    pub count: usize,
}

impl Rows {
    // The rows that there are.
    pub fn as_slice(&self) -> &[u16]
        requires { self.now.count ≤ length self.now.rows }
        ensures { result.now ≡ take self.now.count self.now.rows }
    {
        &self.rows[..self.count]
    }
}

pub fn reduced(columns: &[u16; ROW_BITS]) -> Rows
    ensures { Basis columns.now result.rows result.count }
{
    let mut rows = [0u16; ROW_BITS];
    let mut count: usize = 0;
    for (m, &column) in columns.iter().enumerate() {
        let power = POWERS[m];
        rows[count] = power ^ column;
        count += usize::from(column < power);
    }
    Rows { rows, count }
}
