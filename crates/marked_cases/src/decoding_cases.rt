// The marked cases of decoding, 7 and 8, with their masks, and a tie over two blocks, over sections that merging leaves. And the bounds on
// blocks and on the states of a section and of a frame's ends.
use crate::print::{put_numbers, put_outcome};
use std::io;
use trellis::COSTS_A_BLOCK;

// One section for each block, from state 0 to state 0. The buffers have a place more than two blocks take.
fn run_case(
    rt: &impl Print,
    name: &[u8],
    section: &[u16],
    indices: &[u8],
    received: &[u16],
    erased: &[u8],
) -> io::Result<()> {
    let mut costs = [9u32; 2 * COSTS_A_BLOCK + 1];
    let mut labels = [9u16; 3];
    let mut goals = [9u8; 3];
    let mut masks = [9u8; 3];
    rt.write_all(name)?;
    let answer = chain::decode(
        section,
        1,
        indices,
        received,
        erased,
        0,
        0,
        &mut costs,
        &mut labels,
        &mut goals,
        &mut masks,
    );
    put_outcome(rt, b"answer", answer)?;
    put_numbers(rt, b"labels", &labels)?;
    put_numbers(rt, b"goals", &goals)?;
    put_numbers(rt, b"masks", &masks)?;
    put_numbers(rt, b"costs", &costs)
}

// The section of case 3, labels 00 and 11, which has 22 numbers.
fn merge_two_words(section: &mut [u16]) {
    let mut map = [9u16; 6];
    let _ = merge::merge(
        b"\x02\x02\x01\x02\x00\x00\x00\x00\x00\x00\x00\x05\x00",
        &mut map,
        section,
    );
}

// Received 01 and 11, none erased.
fn case_7(rt: &impl Print) -> io::Result<()> {
    let mut section = [9u16; 22];
    merge_two_words(&mut section);
    let received = [1u16, 5];
    run_case(
        rt,
        b"case 7\n",
        &section,
        b"\x00\x00",
        &received,
        b"\x00\x00",
    )
}

// Received 00, the second symbol erased: distance 0, since an erased symbol costs nothing.
fn case_8(rt: &impl Print) -> io::Result<()> {
    let mut section = [9u16; 22];
    merge_two_words(&mut section);
    let received = [0u16; 1];
    run_case(rt, b"case 8\n", &section, b"\x00", &received, b"\x01")
}

// The words (0,0,1), (0,1,0), (1,0,0), received 0 and 1: labels 0, 0 and labels 1, 1 are at the same distance, and the first block settles
// it.
fn tie(rt: &impl Print) -> io::Result<()> {
    let mut map = [9u16; 6];
    let mut section = [9u16; 19];
    let file = b"\x02\x01\x02\x03\x00\x00\x01\x00\x00\x01\x00\x00\x00\x01\x00\x00\x00";
    let _ = merge::merge(file, &mut map, &mut section);
    let received = [0u16, 1];
    run_case(rt, b"tie\n", &section, b"\x00\x00", &received, b"\x00\x00")
}

fn run_bound(
    rt: &impl Print,
    name: &[u8],
    indices: &[u8],
    received: &[u16],
    erased: &[u8],
) -> io::Result<()> {
    let mut section = [9u16; 22];
    merge_two_words(&mut section);
    let mut costs = [0u32; 257 * COSTS_A_BLOCK];
    let mut labels = [0u16; 257];
    let mut goals = [0u8; 257];
    let mut masks = [0u8; 257];
    rt.write_all(name)?;
    let answer = chain::decode(
        &section,
        1,
        indices,
        received,
        erased,
        0,
        0,
        &mut costs,
        &mut labels,
        &mut goals,
        &mut masks,
    );
    put_outcome(rt, b"answer", answer)
}

// Case 3 in every block, received 01, none erased.
fn bound_blocks(rt: &impl Print) -> io::Result<()> {
    run_bound(rt, b"256 blocks\n", &[0u8; 256], &[1u16; 256], &[0u8; 256])?;
    run_bound(rt, b"257 blocks\n", &[0u8; 257], &[1u16; 257], &[0u8; 257])
}

// A section is read back, and a block received as its one word is decoded over it.
fn run_states(rt: &impl Print, name: &[u8], section: &[u16], start: u8, end: u8) -> io::Result<()> {
    let mut file = [0u8; 9];
    let mut costs = [0u32; COSTS_A_BLOCK];
    let mut labels = [0u16; 1];
    let mut goals = [0u8; 1];
    let mut masks = [0u8; 1];
    rt.write_all(name)?;
    let read = read_back::read_back(section, &mut file);
    put_outcome(rt, b"read back", read)?;
    let answer = chain::decode(
        section,
        1,
        b"\x00",
        &[0u16; 1],
        b"\x00",
        start,
        end,
        &mut costs,
        &mut labels,
        &mut goals,
        &mut masks,
    );
    put_outcome(rt, b"answer", answer)
}

// One word, from the last state to itself.
fn bound_states(rt: &impl Print) -> io::Result<()> {
    let most = [2u16, 1, 16, 1, 1, 1, 15, 15, 0, 0, 0];
    let over = [2u16, 1, 17, 1, 1, 1, 16, 16, 0, 0, 0];
    run_states(rt, b"a section of 16 states\n", &most, 15, 15)?;
    run_states(rt, b"a section of 17 states\n", &over, 15, 15)?;
    run_states(rt, b"start state 16\n", &most, 16, 15)?;
    run_states(rt, b"end state 16\n", &most, 15, 16)
}

pub fn run_cases(rt: &impl Print) -> io::Result<()> {
    case_7(rt)?;
    case_8(rt)?;
    tie(rt)
}

pub fn run_bounds(rt: &impl Print) -> io::Result<()> {
    bound_blocks(rt)?;
    bound_states(rt)
}
