// Case 9 from its generator rows: the file that is written is case 9's. And the bounds on state bits, symbols and rows, dependent rows and
// wide ones.
use crate::print::{put_numbers, put_outcome};
use std::io;

// The section of rate 2/3: 10 111 00, 01 001 00, 00 101 10, 00 110 01.
pub fn run_case(rt: &impl Print) -> io::Result<()> {
    let rows: [u16; 4] = [92, 36, 22, 25];
    let mut file = [9u8; 70];
    let mut map = [9u16; 65];
    let mut section = [9u16; 115];
    rt.write_all(b"case 9, from rows\n")?;
    let answer = merge_rows::merge_rows(2, 3, &rows, &mut file, &mut map, &mut section);
    put_outcome(rt, b"answer", answer)?;
    put_numbers(rt, b"file", &file)?;
    put_numbers(rt, b"map", &map)?;
    put_numbers(rt, b"section", &section)
}

fn run_bound(rt: &impl Print, name: &[u8], bits: usize, n: usize, rows: &[u16]) -> io::Result<()> {
    let mut file = [0u8; 4101];
    let mut map = [0u16; 9216];
    let mut section = [0u16; 1024];
    rt.write_all(name)?;
    let answer = merge_rows::merge_rows(bits, n, rows, &mut file, &mut map, &mut section);
    put_outcome(rt, b"answer", answer)
}

// As many rows as there can be, each with one bit, and one row more.
pub fn run_bounds(rt: &impl Print) -> io::Result<()> {
    let most: [u16; 10] = [32768, 16384, 8192, 4096, 2048, 1024, 512, 256, 128, 64];
    let over: [u16; 11] = [32768, 16384, 8192, 4096, 2048, 1024, 512, 256, 128, 64, 32];
    run_bound(rt, b"10 rows\n", 4, 8, &most)?;
    run_bound(rt, b"11 rows\n", 4, 8, &over)?;
    let one: [u16; 1] = [1];
    run_bound(rt, b"0 state bits, n 1\n", 0, 1, &one)?;
    run_bound(rt, b"5 state bits\n", 5, 8, &one)?;
    run_bound(rt, b"rows of n 0\n", 4, 0, &one)?;
    run_bound(rt, b"rows of n 9\n", 4, 9, &one)?;
    let wide: [u16; 2] = [1, 2];
    run_bound(rt, b"a row too wide\n", 0, 1, &wide)?;
    let dependent: [u16; 3] = [5, 3, 6];
    run_bound(rt, b"a row that is a sum\n", 1, 1, &dependent)?;
    let zero: [u16; 1] = [0];
    run_bound(rt, b"a row of zeros\n", 1, 1, &zero)
}
