// Merging of a list of words, which stand in three slices: refusal 6, 7, or success.

#![tactic(auto)]

ghost use Rattle.std.specs.Prelude.{◌+◌, ◌≤◌, length};
ghost use Rattle.trellis.specs.Witness.{witness};
ghost use Rattle.depths.specs.Inner.Words.{words};
ghost use Rattle.word_lists.specs.Inner.Lists.{WordsHeld};
ghost use Rattle.merging.specs.Merging.{merged};
ghost use Rattle.merging.specs.Inner.Sizes.{any_sizes, sized_by, EndsSized};

use answers::merge::Merged;
use depths::TableWords;
use merging::finish;
use refusing::refuse;
use trellis::MOST_SYMBOLS;

// The words of a table: refusal 6, or what finish says.
pub fn merge_words(
    q: u8,
    states: u8,
    table: TableWords,
    map: &mut [u16],
    section: &mut [u16],
    sizes: &mut [u16],
) -> Merged
    requires { WordsHeld table.n table.roots.now table.labels.now table.goals.now map.old × (any_sizes ≤ length sizes.old) }
    ensures { EndsSized
        (merged q table.entry.n states (words table.entry.roots.now table.entry.labels.now table.entry.goals.now) map.old
        section.old (witness table.entry.n (words table.entry.roots.now table.entry.labels.now table.entry.goals.now)))
        (sized_by q table.entry.n states (words table.entry.roots.now table.entry.labels.now table.entry.goals.now) sizes.old
        (witness table.entry.n (words table.entry.roots.now table.entry.labels.now table.entry.goals.now))) result map.new section.new
        sizes.new }
{
    let mut counts = [0u16; MOST_SYMBOLS + 1];
    if let Some(depth) = inner_depths::merge_inner(table, map, &mut counts) {
        return refuse(table, depth, map);
    }
    finish(q, states, table, counts, map, section, sizes)
}
