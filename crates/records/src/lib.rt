// The records of a block sheet, one for each block of a frame, and the sums over a lent list of them, a slice of structs.

#![tactic(auto)]

ghost use Rattle.std.specs.Prelude.{◌≡◌, ◌≤◌, length, take};
ghost use Rattle.trellis.specs.Bounds.{most_blocks};
ghost use Rattle.records.specs.Records.{additions_sum, selections_sum, counted_outcome, counting};

use trellis::MOST_BLOCKS;

// A block's index, the index of its section, and what that section costs.
#[derive(Clone, Copy)]
pub struct BlockRecord {
    pub index: u32,
    pub section: u32,
    pub additions: u32,
    pub selections: u32,
}

// The sums of both costs over a list of records.
#[derive(Clone, Copy)]
pub struct Sums {
    pub additions: u64,
    pub selections: u64,
}

// Why no records are counted: a frame cannot have so many blocks as there are records.
#[derive(Clone, Copy)]
pub struct TooMany {
    pub count: usize,
}

// Sums of 32 bits each over as many records as a frame has blocks stay far below 64 bits.
fn sum(records: &[BlockRecord]) -> Sums
    requires { length records.now ≤ most_blocks }
    ensures { (result.additions ≡ additions_sum records.now) × (result.selections ≡ selections_sum records.now) }
{
    let mut sums = Sums {
        additions: 0,
        selections: 0,
    };
    for block in records {
        sums.additions += block.additions as u64;
        sums.selections += block.selections as u64;
    }
    sums
}

// The sums over a lent list of records.
pub fn count(records: &[BlockRecord]) -> Result<Sums, TooMany>
    ensures { counted_outcome result ≡ counting records.now }
{
    if records.len() > MOST_BLOCKS {
        return Err(TooMany {
            count: records.len(),
        });
    }
    Ok(sum(records))
}

// The sums over the first records of an array, lent as a list: for callers whose own proofs speak of plain values only.
pub fn count_first(records: [BlockRecord; MOST_BLOCKS], blocks: usize) -> Result<Sums, TooMany>
    requires { blocks ≤ length records }
    ensures { counted_outcome result ≡ counting (take blocks records) }
{
    count(&records[..blocks])
}
