// One inner depth of a table, in one pass over the words, which are lent as three parallel slices. Promised: whether the table is
// rectangular there, and if so the vertex of every word.

#![tactic(auto)]

ghost use Rattle.std.specs.Prelude.{◌≡◌, cond, ◌+◌, ◌-◌, ◌<◌, ◌≤◌, length, eqb};
ghost use Rattle.trellis.specs.Bounds.{most_words};
ghost use Rattle.runs.specs.Inner.Runs.{first_like};
ghost use Rattle.depth_runs.specs.Inner.Rows.{Row, Small, Bytes, begin_alike, joins, start_by, run_start, row_key};
ghost use Rattle.depths.specs.Inner.Words.{words};
ghost use Rattle.depths.specs.Inner.Merge.{DepthAsked, DepthDone};

use depth_runs::{put_numbers, runs_agree};
use trellis::{MOST_Q, MOST_WORDS};

// The words of a table, whose labels have n symbols each, in three slices: word i's root, label and goal stand at place i.
#[derive(Clone, Copy)]
pub struct TableWords<'a> {
    pub n: usize,
    pub roots: &'a [u8],
    pub labels: &'a [u16],
    pub goals: &'a [u8],
}

// Whether words i and j have the same beginning at depth t.
fn begin_alike(roots: &[u8], labels: &[u16], n: usize, t: usize, i: usize, j: usize) -> bool
    requires { (i < length roots.now) × (j < length roots.now) × (length labels.now ≡ length roots.now) }
    ensures { result ≡ begin_alike roots.now labels.now n t i j }
{
    roots[i] == roots[j] && label::front(labels[i], n, t) == label::front(labels[j], n, t)
}

// The start of i's run, where `before` is the start of the run of the word before i.
fn run_start(roots: &[u8], labels: &[u16], n: usize, t: usize, i: usize, before: u16) -> u16
    requires { (i < length roots.now) × (length roots.now ≤ most_words) × (length labels.now ≡ length roots.now) }
    ensures { result ≡ start_by (joins roots.now labels.now n t) i before }
{
    if i == 0 {
        return 0;
    }
    if begin_alike(roots, labels, n, t, i - 1, i) {
        before
    } else {
        i as u16
    }
}

// The start of each word's run at depth t.
pub fn put_starts(roots: &[u8], labels: &[u16], n: usize, t: usize, starts: &mut [u16; MOST_WORDS])
    requires { (length roots.now ≤ most_words) × (length labels.now ≡ length roots.now) × (length starts.old ≡ most_words) }
    ensures { Row (length roots.now) (run_start (joins roots.now labels.now n t))
        starts.new }
{
    let mut start: u16 = 0;
    for i in 0..roots.len() {
        start = run_start(roots, labels, n, t, i, start);
        starts[i] = start;
    }
}

// No word has this index: a mark, since an array of options would take twice the bytes of the stack.
const NOTHING: u16 = MOST_WORDS as u16;

// What was noted for a key, or i where nothing was.
fn noted(old: u16, i: u16) -> u16
    ensures { result ≡ cond (eqb old most_words) i old }
{
    if old == NOTHING { i } else { old }
}

// The row becomes, for each word, the first word with its symbol t and its number in the row.
pub fn put_firsts(labels: &[u16], n: usize, t: usize, row: &mut [u16; MOST_WORDS])
    requires { (length labels.now ≤ most_words) × Small (length labels.now) row.old }
    ensures { Row (length labels.now) (first_like (row_key labels.now n t row.old))
        row.new }
{
    let mut seen = [NOTHING; MOST_Q * MOST_WORDS];
    for i in 0..labels.len() {
        let key = usize::from(row[i]) * 4 + usize::from(label::symbol(labels[i], n, t));
        let first = noted(seen[key], i as u16);
        seen[key] = first;
        row[i] = first;
    }
}

// Depth t of a table: how many vertices it has, or none if the table is not rectangular there. The row tells the endings at depth t + 1
// apart, and then those at depth t; the map gets the depth's vertices.
pub fn merge_depth(
    table: TableWords,
    t: usize,
    row: &mut [u16; MOST_WORDS],
    map: &mut [u16],
) -> Option<u16>
    requires { DepthAsked table.n t table.roots.now table.labels.now table.goals.now row.old map.old }
    ensures { DepthDone table.entry.n t (words table.entry.roots.now table.entry.labels.now table.entry.goals.now) row.new
        map.old map.new result }
{
    let w = table.roots.len();
    let mut starts = [0u16; MOST_WORDS];
    put_starts(table.roots, table.labels, table.n, t, &mut starts);
    put_firsts(table.labels, table.n, t, row);
    if !runs_agree(&starts, row, w) {
        return None;
    }
    Some(put_numbers(&starts, row, w, map, t * w))
}

// The goals as a row: they tell the endings at depth n apart.
pub fn put_goals(goals: &[u8], row: &mut [u16; MOST_WORDS])
    requires { (length goals.now ≤ most_words) × (length row.old ≡ most_words) }
    ensures { Bytes goals.now row.new }
{
    for i in 0..goals.len() {
        row[i] = u16::from(goals[i]);
    }
}
