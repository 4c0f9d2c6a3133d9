// The lines of a block sheet: one for each record, and one of their sums.

#![tactic(auto)]

ghost use mathlib.Core.List.{flat_map};
ghost use Rattle.std.specs.Prelude.{◌≤◌, length, take};
ghost use Rattle.trellis.specs.Bounds.{most_blocks};
ghost use Rattle.text.specs.Inner.Put.{Put};
ghost use Rattle.sheet_records.specs.Sheet.{block_line, total_line};

use records::{BlockRecord, count_first};
use text::put_line;
use trellis::MOST_BLOCKS;

fn put_block(text: &mut [u8], at: usize, block: BlockRecord) -> usize
    ensures { Put text.old at (block_line block) text.new result }
{
    let numbers = [
        block.index as usize,
        block.section as usize,
        block.additions as usize,
        block.selections as usize,
    ];
    put_line(text, at, b"block", &numbers)
}

// The lines of the first `blocks` records.
pub fn put_blocks(text: &mut [u8], items: [BlockRecord; MOST_BLOCKS], blocks: usize) -> usize
    requires { blocks ≤ length items }
    ensures { Put text.old 0 (flat_map block_line (take blocks items)) text.new result }
{
    let mut end: usize = 0;
    for block in &items[..blocks] {
        end = put_block(text, end, *block);
    }
    end
}

// The sums over these records.
pub fn put_total(
    text: &mut [u8],
    at: usize,
    items: [BlockRecord; MOST_BLOCKS],
    blocks: usize,
) -> usize
    requires { (blocks ≤ length items) × (blocks ≤ most_blocks) }
    ensures { Put text.old at (total_line (take blocks items)) text.new result }
{
    match count_first(items, blocks) {
        Ok(sums) => {
            let numbers = [sums.additions as usize, sums.selections as usize];
            put_line(text, at, b"total", &numbers)
        }
        // There are no more records than a frame can have blocks.
        Err(_) => at,
    }
}
