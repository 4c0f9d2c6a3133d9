// Merging: a table file becomes the map of its words' vertices and the smallest section that has just its words. The promise, for all
// arguments, is an equation with one definition, `merging`: the answer with document 01's number and values, and every place of both
// buffers. Who asks only for the section's sizes has a table measured, with no room for a section.

#![tactic(auto)]

ghost use Rattle.std.specs.Prelude.{◌≡◌, ◌+◌, ◌*◌, ◌<◌, ◌≤◌, length};
ghost use Rattle.fields.specs.Fields.{file_words};
ghost use Rattle.table.specs.File.{accepted, table_file};
ghost use Rattle.merging.specs.Merging.{Ends, merging, merged_table};
ghost use Rattle.merging.specs.Inner.Sizes.{any_sizes, sized_table, sizing, EndsSized, Measured};

pub use answers::merge::{MergeRefusal, Merged};
use depths::TableWords;
use merge_words::merge_words;
pub use merging::ANY_SIZES;
use table::Sizes;
use word_lists::copy_words;

// A file that checks 1 to 4 accept: refusal 5, or what its words come to.
fn merge_table(
    file: &[u8],
    stated: Sizes,
    map: &mut [u16],
    section: &mut [u16],
    sizes: &mut [u16],
) -> Merged
    requires accepted { table_file file.now ≡ accepted stated.q stated.n stated.states (file_words file.now) }
    requires counted { stated.words ≡ length (file_words file.now) }
    requires room { any_sizes ≤ length sizes.old }
    ensures { EndsSized (merged_table stated.q stated.n stated.states (file_words file.now) map.old section.old)
        (sized_table stated.q stated.n stated.states (file_words file.now) map.old sizes.old) result
        map.new section.new sizes.new }
{
    let w = stated.words as usize;
    let n = stated.n as usize;
    let needed = w * (n + 1);
    if map.len() < needed {
        return Err(MergeRefusal::ShortMap(needed));
    }
    let lists = copy_words(file, stated.words);
    let table = TableWords {
        n,
        roots: &lists.roots[..w],
        labels: &lists.labels[..w],
        goals: &lists.goals[..w],
    };
    merge_words(stated.q, stated.states, table, map, section, sizes)
}

// A file: refusals 1 to 4, or what its table comes to.
fn merge_file(file: &[u8], map: &mut [u16], section: &mut [u16], sizes: &mut [u16]) -> Merged
    requires { any_sizes ≤ length sizes.old }
    ensures { EndsSized (merging file.now map.old section.old)
        (sizing file.now map.old sizes.old) result map.new section.new
        sizes.new }
{
    let stated = table::check(file)?;
    merge_table(file, stated, map, section, sizes)
}

// Merges the table in `file`: the vertex of each word at each depth into `map`, the section into `section`.
pub fn merge(file: &[u8], map: &mut [u16], section: &mut [u16]) -> Merged
    ensures { Ends (merging file.now map.old section.old) result map.new
        section.new }
{
    let mut sizes = [0u16; ANY_SIZES];
    merge_file(file, map, section, &mut sizes)
}

// Measures the table in `file`: the map as in merging, and the section's sizes, but no section. A table that has a section is answered by
// refusal 7 with its length.
pub fn measure(file: &[u8], map: &mut [u16], sizes: &mut [u16]) -> Merged
    requires { any_sizes ≤ length sizes.old }
    ensures { Measured file.now map.old sizes.old result map.new sizes.new }
{
    let mut none = [0u16; 0];
    merge_file(file, map, &mut none, sizes)
}
