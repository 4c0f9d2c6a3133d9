// The records of the blocks of a frame, from the input of a block sheet and both costs of each section.

#![tactic(auto)]

ghost use Rattle.sheet_records.specs.Sheet.{records_of};
ghost use Rattle.sheet_records.specs.Inner.Made.{Drawn, Holding};

use input_parts::section_index;
use records::BlockRecord;
use trellis::{MOST_BLOCKS, MOST_SECTIONS};

// The records of the blocks, in front; the places behind them are not used.
#[derive(Clone, Copy)]
pub struct Records {
    pub items: [BlockRecord; MOST_BLOCKS],
}

pub fn make_records(
    input: &[u8],
    blocks: usize,
    additions: [u32; MOST_SECTIONS],
    selections: [u32; MOST_SECTIONS],
) -> Records
    requires { Drawn input.now blocks additions selections }
    ensures { Holding (records_of input.now) blocks result.items }
{
    let mut items = [BlockRecord {
        index: 0,
        section: 0,
        additions: 0,
        selections: 0,
    }; MOST_BLOCKS];
    for b in 0..blocks {
        let section = section_index(input, b);
        items[b] = BlockRecord {
            index: b as u32,
            section: section as u32,
            additions: additions[section],
            selections: selections[section],
        };
    }
    Records { items }
}
