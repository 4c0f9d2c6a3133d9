// Parity checks of rows of bits, held by their columns: column m belongs to bit m. A row is taken up by the highest bit of its syndrome,
// and a row of syndrome 0 is a sum of those before it. What the columns say in the end is in the definitions of `rows`.

#![tactic(auto)]

ghost use Rattle.std.specs.Prelude.{◌≡◌, ◌%◌, ◌^◌, ◌≤◌, ◌<◌, length, get_or, MatchResult};
ghost use Rattle.rows.specs.Sums.{chosen, sum_of, first_dependent};
ghost use Rattle.rows.specs.Inner.Reduced.{bit_at, cleared, add_row, Narrow, Spans};
ghost use Rattle.parity.specs.Inner.Steps.{Top, TakenUp, Checked};

// As many bits as any row has.
pub const ROW_BITS: usize = 16;

// The columns of no rows: each number is its own syndrome.
pub const POWERS: [u16; ROW_BITS] = [
    1, 2, 4, 8, 16, 32, 64, 128, 256, 512, 1024, 2048, 4096, 8192, 16384, 32768,
];

// The last `bits` bits of a row.
pub fn low_bits(x: u16, bits: usize) -> u16
    requires { bits < 16 }
    ensures { result ≡ x % 2 ^ bits }
{
    x & ((1 << bits) - 1)
}

// Bit `cut` of a row.
pub fn bit_at(x: u16, cut: usize) -> u16
    requires { cut < 16 }
    ensures { result ≡ bit_at cut x }
{
    (x >> cut) & 1
}

// r where the bit is set, else 0.
fn picked(bit: u16, r: u16) -> u16
    ensures { result ≡ chosen bit r }
{
    if bit == 0 { 0 } else { r }
}

// The sum of the columns at the set bits of x.
pub fn syndrome(columns: &[u16; ROW_BITS], x: u16) -> u16
    ensures { result ≡ sum_of columns.now x }
{
    let mut sum: u16 = 0;
    let mut rest = x;
    for &column in columns {
        sum ^= picked(rest & 1, column);
        rest >>= 1;
    }
    sum
}

// The place of the highest set bit.
fn highest(z: u16) -> usize
    requires { 0 < z }
    ensures { Top z result }
{
    (15 - z.leading_zeros()) as usize
}

// y, with z added where bit p is set.
fn column_cleared(p: usize, z: u16, y: u16) -> u16
    requires { p < 16 }
    ensures { result ≡ cleared p z y }
{
    y ^ picked(bit_at(y, p), z)
}

// z added to the columns that have bit p.
fn add_row(columns: &mut [u16; ROW_BITS], p: usize, z: u16)
    requires { p < 16 }
    ensures { columns.new ≡ add_row p z columns.old }
{
    for column in columns.iter_mut() {
        *column = column_cleared(p, z, *column);
    }
}

// Takes up a row of syndrome z; one of syndrome 0 changes nothing.
fn take_up(columns: &mut [u16; ROW_BITS], z: u16)
    ensures { TakenUp z columns.old columns.new }
{
    if z == 0 {
        return;
    }
    let p = highest(z);
    add_row(columns, p, z);
}

// The parity check of the rows, which takes them up one by one, or the first that is a sum of those before it.
pub fn check(rows: &[u16]) -> Result<[u16; ROW_BITS], usize>
    requires { Narrow 16 rows.now }
    ensures { MatchResult result (λ columns. Checked rows.now columns (length rows.now))
        (λ first. (first < length rows.now) × (first ≡ first_dependent rows.now)) }
{
    let mut columns = POWERS;
    for (j, &row) in rows.iter().enumerate() {
        let z = syndrome(&columns, row);
        if z == 0 {
            return Err(j);
        }
        take_up(&mut columns, z);
    }
    Ok(columns)
}

// The check of rows that may depend on one another.
pub fn check_all(rows: &[u16]) -> [u16; ROW_BITS]
    requires { Narrow 16 rows.now }
    ensures { Spans 16 rows.now result }
{
    let mut columns = POWERS;
    for &row in rows {
        let z = syndrome(&columns, row);
        take_up(&mut columns, z);
    }
    columns
}

// What f gives of each row, in front.
pub fn each_row<F: Fn(u16) -> u16>(rows: &[u16], f: F) -> [u16; ROW_BITS]
    requires { F.IsAlwaysCallable f × (length rows.now ≤ 16) }
    ensures { ((b : _) → b < length rows.now → F.post f (get_or rows.now b 0) (get_or result b 0))
        × (length result ≡ 16) }
{
    let mut values = [0; ROW_BITS];
    for (b, &row) in rows.iter().enumerate() {
        values[b] = f(row);
    }
    values
}
