// The first witness of a refusal: at a depth where a table is not rectangular, the first words i, j, k that force a word which it lacks.
// Promised: the answer is the witness of the definition, by i, then j, then k.

#![tactic(auto)]

ghost use Rattle.std.specs.Prelude.{◌≡◌, ◌<◌, ◌≤◌};
ghost use Rattle.trellis.specs.Bounds.{most_words};
ghost use Rattle.trellis.specs.Witness.{witness_at};
ghost use Rattle.depths.specs.Inner.Words.{words};
ghost use Rattle.lacking.specs.Inner.Search.{as_witness, FirstIn};
ghost use Rattle.lacking.specs.Inner.Rows.{InnerDepth, SearchRows, to_try, refutes_in};

use depths::TableWords;
pub use lacking::Triple;
use lacking::{NOTHING, first_lacking, in_run, put_next};
use trellis::MOST_WORDS;

// Whether j is to be tried with i: it is of i's run, and one of them is the run's first word. If that word begins no witness, another word
// of its run begins one only together with it.
fn to_try(starts: &[u16; MOST_WORDS], w: usize, i: usize, j: usize) -> bool
    requires { (w ≤ most_words) × (i < w) }
    ensures { result ≡ to_try starts.now w i j }
{
    let start = starts[i];
    let a = usize::from(start);
    if a < i {
        return j == a;
    }
    in_run(starts, w, start, j)
}

// The first i, then j, then k that refute the table. All words with an ending are gone along only for its first word: so the search takes a
// few steps for each word, whatever the table is. It is nested and yields its triple by break, as the paper asks: a `for` yields nothing.
fn first_witness(starts: &[u16; MOST_WORDS], firsts: &[u16; MOST_WORDS], w: usize) -> Option<Triple>
    requires { SearchRows w starts.now firsts.now }
    ensures { FirstIn (refutes_in starts.now firsts.now w) w result }
{
    let mut next = [NOTHING; MOST_WORDS];
    put_next(firsts, w, &mut next);
    let mut i: usize = 0;
    'search: loop {
        if i >= w {
            break None;
        }
        let mut j = usize::from(starts[i]);
        // Which words are tried is known by a test alone, and not by a range: `for` would be no plainer.
        while to_try(starts, w, i, j) {
            if let Some(k) = first_lacking(starts, firsts, &next, w, i, j) {
                break 'search Some(Triple { i, j, k });
            }
            j += 1;
        }
        i += 1;
    }
}

// The first words i, j, k that refute the table at the inner depth t.
pub fn find_witness(table: TableWords, t: usize) -> Option<Triple>
    requires { InnerDepth table.n t table.roots.now table.labels.now table.goals.now }
    ensures { as_witness t result ≡ witness_at table.entry.n (words table.entry.roots.now table.entry.labels.now table.entry.goals.now) t }
{
    let mut starts = [0u16; MOST_WORDS];
    depths::put_starts(table.roots, table.labels, table.n, t, &mut starts);
    let mut row = [0u16; MOST_WORDS];
    depths::put_goals(table.goals, &mut row);
    for u in (t..table.n).rev() {
        depths::put_firsts(table.labels, table.n, u, &mut row);
    }
    first_witness(&starts, &row, table.roots.len())
}
