// Merging generator rows, for C and Rust: the answer in plain numbers.

#![tactic(auto)]

ghost use Rattle.merging_rows.specs.MergingRows.{merging_rows, MergeRowsLeft};

// Merges the table of all sums of generator rows.
pub fn merge_rows_numbered(
    bits: usize,
    n: usize,
    rows: &[u16],
    file: &mut [u8],
    map: &mut [u16],
    section: &mut [u16],
    values: &mut [u32; 4],
) -> u32
    ensures { MergeRowsLeft
        (merging_rows bits n rows.now file.old map.old section.old) result
        file.new map.new section.new values.new }
{
    let answer = merge_rows::merge_rows(bits, n, rows, file, map, section);
    answers::store(answer, values)
}
