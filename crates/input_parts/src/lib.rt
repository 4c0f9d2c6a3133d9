// The input of a block sheet: what stands where, and its faults but for those of its tables, in document 02's order.

#![tactic(auto)]

ghost use Rattle.std.specs.Prelude.{◌≡◌, ◌≤◌, length};
ghost use Rattle.trellis.specs.Bounds.{most_sections};
ghost use Rattle.trellis.specs.Lists.{found_below};
ghost use Rattle.input_parts.specs.Input.{input_sections, input_blocks, input_index, any_table, table_part, lengths_bad, first_index};
ghost use Rattle.input_parts.specs.Inner.Read.{head_outcome, left_over, HeadRead, TellsFault};

use fields::{byte_at, two_bytes, word_count};
use numbers::{is_within, wide, widened};
use outcomes::{Returned, one_value};
use trellis::{MOST_BLOCKS, MOST_SECTIONS};

// K as the input states it.
pub fn section_count(input: &[u8]) -> usize
    ensures { (result ≡ input_sections input.now) × (result ≤ 255) }
{
    widened(byte_at(input, 0))
}

// B as the input states it.
pub fn block_count(input: &[u8]) -> usize
    ensures { (result ≡ input_blocks input.now) × (result ≤ 65535) }
{
    wide(two_bytes(byte_at(input, 1), byte_at(input, 2)))
}

// The section of a block.
pub fn section_index(input: &[u8], block: usize) -> usize
    requires { block ≤ 65535 }
    ensures { (result ≡ input_index input.now block) × (result ≤ 255) }
{
    widened(byte_at(input, 3 + block))
}

// B is outside its bounds, or there are fewer indices.
fn lengths_bad(input: &[u8], blocks: usize) -> bool
    requires { (blocks ≡ input_blocks input.now) × (blocks ≤ 65535) }
    ensures { result ≡ lengths_bad input.now }
{
    if !is_within(1, MOST_BLOCKS, blocks) {
        return true;
    }
    input.len() < 3 + blocks
}

// The first block whose section is not below K.
fn first_index(input: &[u8], sections: usize, blocks: usize) -> Option<usize>
    requires { (sections ≡ input_sections input.now) × (blocks ≡ input_blocks input.now) × (blocks ≤ 65535) }
    ensures { result ≡ found_below (input_blocks input.now) (first_index input.now) }
{
    for b in 0..blocks {
        if section_index(input, b) >= sections {
            return Some(b);
        }
    }
    None
}

// K, B and the indices: the first fault.
pub fn check_head(input: &[u8], sections: usize, blocks: usize) -> Result<(), Returned>
    requires { HeadRead input.now sections blocks }
    ensures { TellsFault (head_outcome input.now) result }
{
    if !is_within(1, MOST_SECTIONS, sections) {
        return Err(one_value(8, sections));
    }
    if lengths_bad(input, blocks) {
        return Err(one_value(9, blocks));
    }
    if let Some(bad) = first_index(input, sections, blocks) {
        return Err(one_value(9, bad));
    }
    Ok(())
}

// Bytes behind the last table are refused with K.
pub fn left_over(end: usize, length: usize, sections: usize) -> Result<(), Returned>
    requires { sections ≤ most_sections }
    ensures { TellsFault (left_over end length sections) result }
{
    if end < length {
        return Err(one_value(8, sections));
    }
    Ok(())
}

// How many bytes the table at the front of `rest` has: as many as its W says, or what is left.
pub fn part_length(rest: &[u8]) -> usize
    ensures { (result ≡ length (table_part rest.now)) × (result ≤ any_table) }
{
    let length = 5 + 4 * wide(word_count(rest));
    if rest.len() < length {
        return rest.len();
    }
    length
}
