// Merging a table, for C and Rust: the answer in plain numbers.

#![tactic(auto)]

ghost use Rattle.merging.specs.Merging.{merging, MergeLeft};

// Merges the table in `file`.
pub fn merge_numbered(
    file: &[u8],
    map: &mut [u16],
    section: &mut [u16],
    values: &mut [u32; 4],
) -> u32
    ensures { MergeLeft (merging file.now map.old section.old) result
        map.new section.new values.new }
{
    let answer = merge::merge(file, map, section);
    answers::store(answer, values)
}
