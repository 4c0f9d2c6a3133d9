// The block sheet: a line with the record of each block, then a line with the sums, or the line of a refusal, as bytes in a lent buffer.
// The records are made first, and the lines and the sums come from them. The promise is an equation with `sheet`, whose text comes from the
// input alone, with no buffer in it.

#![tactic(auto)]

ghost use Rattle.std.specs.Prelude.{◌≡◌, length};
ghost use Rattle.answers.specs.Answers.{listed_outcome};
ghost use Rattle.text_buffer.specs.Listing.{left};
ghost use Rattle.sheet_records.specs.Sheet.{sheet};
ghost use Rattle.sheet_records.specs.Inner.Made.{SheetMade};

use answers::listing::Listed;
use input_parts::block_count;
use refusal_line::put_refusal;
use sheet_lines::{put_blocks, put_total};
use sheet_records::make_records;
use text_buffer::put_whole;

// Bytes that are enough for every sheet: at most 256 lines of a word and four numbers of at most five digits, and the line of the sums.
pub const ANY_SHEET: usize = 8192;

fn put_sheet(input: &[u8], text: &mut [u8]) -> usize
    ensures { SheetMade input.now text.old text.new result }
{
    match sheet_input::read(input) {
        Err(refusal) => put_refusal(text, refusal),
        Ok(costs) => {
            let blocks = block_count(input);
            let made = make_records(input, blocks, costs.additions, costs.selections);
            let items = made.items;
            let end = put_blocks(text, items, blocks);
            put_total(text, end, items, blocks)
        }
    }
}

// Writes the block sheet of `input`, or the line of its refusal, to the front of `text`.
pub fn block_sheet(input: &[u8], text: &mut [u8]) -> Listed
    ensures { left (listed_outcome result) text.new ≡ sheet input.now text.old }
{
    let mut made = [0u8; ANY_SHEET];
    let length = put_sheet(input, &mut made);
    put_whole(&made[..length], text)
}
