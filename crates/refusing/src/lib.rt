// The refusal of a table that is not rectangular, at the first inner depth that fails.

#![tactic(auto)]

ghost use Rattle.std.specs.Prelude.{◌≡◌, ◌+◌, ◌*◌, length};
ghost use Rattle.trellis.specs.Witness.{witness};
ghost use Rattle.answers.specs.Answers.{merged_outcome};
ghost use Rattle.depths.specs.Inner.Words.{words};
ghost use Rattle.merging.specs.Merging.{refusal_of};
ghost use Rattle.refusing.specs.Inner.Refused.{cleared, RefusedAt};

use answers::merge::{MergeRefusal, Merged};
use depths::TableWords;
use witness::Triple;

// Refusal 6 at the first inner depth that is not rectangular: its witness, and a map of zeros.
pub fn refuse(table: TableWords, t: usize, map: &mut [u16]) -> Merged
    requires { RefusedAt table.n t table.roots.now table.labels.now table.goals.now map.old }
    ensures { (merged_outcome result ≡ refusal_of (witness table.entry.n (words table.entry.roots.now table.entry.labels.now table.entry.goals.now)))
        × (map.new
        ≡ cleared (length table.entry.roots.now * (table.entry.n + 1)) map.old) }
{
    map[..table.roots.len() * (table.n + 1)].fill(0);
    match witness::find_witness(table, t) {
        Some(Triple { i, j, k }) => Err(MergeRefusal::NotRectangular(t, i, j, k)),
        // A depth that is not rectangular has a witness.
        None => Err(MergeRefusal::NotRectangular(t, 0, 0, 0)),
    }
}
