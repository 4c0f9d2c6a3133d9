// The marked cases of merging, 1 to 6 and 9, and the round trip: what merging leaves is read back. And the bounds on words, states, n, q.
ghost use Rattle.std.specs.Prelude.{◌+◌, ◌*◌, ◌≤◌, length};

use crate::print::{put_numbers, put_outcome};
use std::io;

fn run_case(
    rt: &impl Print,
    name: &[u8],
    file: &[u8],
    map: &mut [u16],
    section: &mut [u16],
) -> io::Result<()> {
    rt.write_all(name)?;
    let answer = merge::merge(file, map, section);
    put_outcome(rt, b"answer", answer)?;
    put_numbers(rt, b"map", map)?;
    put_numbers(rt, b"section", section)
}

// Merges into a section buffer that the section is to fill, and reads it back.
fn read_again(
    rt: &impl Print,
    file: &[u8],
    map: &mut [u16],
    section: &mut [u16],
    again: &mut [u8],
) -> io::Result<()> {
    let _ = merge::merge(file, map, section);
    let answer = read_back::read_back(section, again);
    put_outcome(rt, b"read back", answer)?;
    put_numbers(rt, b"file", again)
}

// The labels 00, 01, 10, 11.
fn case_1(rt: &impl Print) -> io::Result<()> {
    let file =
        b"\x02\x02\x01\x04\x00\x00\x00\x00\x00\x00\x00\x00\x00\x00\x00\x01\x00\x04\x00\x05\x00";
    let mut map = [9u16; 13];
    let mut section = [9u16; 23];
    run_case(rt, b"case 1\n", file, &mut map, &mut section)?;
    let mut exact = [9u16; 22];
    let mut again = [9u8; 22];
    read_again(rt, file, &mut map, &mut exact, &mut again)
}

// Case 1 without 11.
fn case_2(rt: &impl Print) -> io::Result<()> {
    let file = b"\x02\x02\x01\x03\x00\x00\x00\x00\x00\x00\x00\x00\x00\x01\x00\x04\x00";
    let mut map = [9u16; 10];
    let mut section = [9u16; 23];
    run_case(rt, b"case 2\n", file, &mut map, &mut section)
}

// The labels 00 and 11.
fn case_3(rt: &impl Print) -> io::Result<()> {
    let file = b"\x02\x02\x01\x02\x00\x00\x00\x00\x00\x00\x00\x05\x00";
    let mut map = [9u16; 7];
    let mut section = [9u16; 23];
    run_case(rt, b"case 3\n", file, &mut map, &mut section)?;
    let mut exact = [9u16; 22];
    let mut again = [9u8; 14];
    read_again(rt, file, &mut map, &mut exact, &mut again)
}

// Two states and three words of one symbol.
fn case_4(rt: &impl Print) -> io::Result<()> {
    let file = b"\x02\x01\x02\x03\x00\x00\x00\x00\x01\x01\x00\x00\x00\x00\x00\x00\x00";
    let mut map = [9u16; 7];
    let mut section = [9u16; 20];
    run_case(rt, b"case 4\n", file, &mut map, &mut section)?;
    let mut exact = [9u16; 19];
    let mut again = [9u8; 18];
    read_again(rt, file, &mut map, &mut exact, &mut again)
}

// Case 1, and a section buffer of 21 numbers.
fn case_5(rt: &impl Print) -> io::Result<()> {
    let file =
        b"\x02\x02\x01\x04\x00\x00\x00\x00\x00\x00\x00\x00\x00\x00\x00\x01\x00\x04\x00\x05\x00";
    let mut map = [9u16; 13];
    let mut section = [9u16; 21];
    run_case(rt, b"case 5\n", file, &mut map, &mut section)
}

// No word.
fn case_6(rt: &impl Print) -> io::Result<()> {
    let mut map = [9u16; 3];
    let mut section = [9u16; 3];
    run_case(
        rt,
        b"case 6\n",
        b"\x02\x02\x01\x00\x00",
        &mut map,
        &mut section,
    )
}

// A section of rate 2/3.
fn case_9(rt: &impl Print) -> io::Result<()> {
    let file = b"\x02\x03\x04\x10\x00\
        \x00\x00\x00\x03\x00\x02\x00\x01\x01\x00\x01\x03\x01\x02\x01\x01\
        \x02\x01\x02\x02\x02\x03\x02\x00\x03\x01\x03\x02\x03\x03\x03\x00\
        \x00\x00\x05\x00\x11\x00\x14\x00\x01\x00\x04\x00\x10\x00\x15\x00\
        \x01\x00\x04\x00\x10\x00\x15\x00\x00\x00\x05\x00\x11\x00\x14\x00";
    let mut map = [9u16; 65];
    let mut section = [9u16; 115];
    run_case(rt, b"case 9\n", file, &mut map, &mut section)?;
    let mut exact = [9u16; 114];
    let mut again = [9u8; 70];
    read_again(rt, file, &mut map, &mut exact, &mut again)
}

fn run_bound(rt: &impl Print, name: &[u8], file: &[u8]) -> io::Result<()> {
    let mut map = [0u16; 9216];
    let mut section = [0u16; 128];
    rt.write_all(name)?;
    let answer = merge::merge(file, &mut map, &mut section);
    put_outcome(rt, b"answer", answer)
}

fn low(x: usize) -> u8 {
    (x % 256) as u8
}

fn high(x: usize) -> u8 {
    (x / 256 % 256) as u8
}

// The labels 0, 1, 2 and so on, two bytes each, from place `from` on.
fn put_labels(file: &mut [u8], from: usize, count: usize)
    requires { from + 2 * count ≤ length file.old }
{
    for i in 0..count {
        file[from + 2 * i] = low(i);
        file[from + 2 * i + 1] = high(i);
    }
}

// Tables of one root, one goal, n 8 and the labels 0, 1, 2 and so on.
fn bound_words(rt: &impl Print) -> io::Result<()> {
    let mut most = [0u8; 4101];
    put_labels(&mut most, 2053, 1024);
    most[0] = 4;
    most[1] = 8;
    most[2] = 1;
    most[4] = 4;
    run_bound(rt, b"1024 words\n", &most)?;
    let mut over = [0u8; 4105];
    put_labels(&mut over, 2055, 1025);
    over[0] = 4;
    over[1] = 8;
    over[2] = 1;
    over[3] = 1;
    over[4] = 4;
    run_bound(rt, b"1025 words\n", &over)
}

fn bound_states(rt: &impl Print) -> io::Result<()> {
    run_bound(rt, b"16 states\n", b"\x02\x01\x10\x01\x00\x0f\x0f\x00\x00")?;
    run_bound(rt, b"17 states\n", b"\x02\x01\x11\x01\x00\x10\x10\x00\x00")
}

fn bound_symbols(rt: &impl Print) -> io::Result<()> {
    run_bound(rt, b"n 8\n", b"\x02\x08\x01\x01\x00\x00\x00\x55\x55")?;
    run_bound(rt, b"n 9\n", b"\x02\x09\x01\x01\x00\x00\x00\x55\x55")?;
    run_bound(rt, b"q 4\n", b"\x04\x01\x01\x01\x00\x00\x00\x03\x00")?;
    run_bound(rt, b"q 5\n", b"\x05\x01\x01\x01\x00\x00\x00\x03\x00")
}

pub fn run_cases(rt: &impl Print) -> io::Result<()> {
    case_1(rt)?;
    case_2(rt)?;
    case_3(rt)?;
    case_4(rt)?;
    case_5(rt)?;
    case_6(rt)?;
    case_9(rt)
}

pub fn run_bounds(rt: &impl Print) -> io::Result<()> {
    bound_words(rt)?;
    bound_states(rt)?;
    bound_symbols(rt)
}
