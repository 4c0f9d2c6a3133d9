// All sums of some rows, by rising choice: those of one row more are those without it, and behind them the same with it added.

#![tactic(auto)]

ghost use Rattle.std.specs.Prelude.{◌+◌, ◌^◌, ◌≤◌, length};
ghost use Rattle.trellis.specs.Lists.{each};
ghost use Rattle.trellis.specs.Inner.Write.{Wrote};
ghost use Rattle.rows.specs.Sums.{sum_of};
ghost use Rattle.row_sums.specs.Inner.Doubled.{Doubled};

// c added to the w numbers from `place` on, written behind them.
pub fn double(row: &mut [u16], place: usize, w: usize, c: u16)
    requires { place + (w + w) ≤ length row.old }
    ensures { Doubled place w c row.old w row.new }
{
    for j in 0..w {
        row[place + w + j] = c ^ row[place + j];
    }
}

// All sums of the rows, from `place` on; gives the place behind them.
pub fn put_sums(rows: &[u16], buffer: &mut [u16], place: usize) -> usize
    requires { (length rows.now ≤ 10) × (place + 2 ^ length rows.now ≤ length buffer.old) }
    ensures { Wrote buffer.old place (each (sum_of rows.now) (2 ^ length rows.now))
        buffer.new result }
{
    buffer[place] = 0;
    let mut w: usize = 1;
    for &row in rows {
        double(buffer, place, w, row);
        w += w;
    }
    place + w
}
