// The pairs (from, to) and the symbols of one step's edges, from the first word on each.

#![tactic(auto)]

ghost use Rattle.std.specs.Prelude.{◌+◌, ◌-◌, ◌*◌, ◌≤◌, length};
ghost use Rattle.trellis.specs.Inner.Write.{Wrote};
ghost use Rattle.takers.specs.Inner.Pieces.{part, pairs_of, symbols_of, WordsAt};

// The pairs of the words at places lo to hi, written from place `at` on.
pub fn put_pairs(
    words: &[u16],
    lo: usize,
    hi: usize,
    map: &[u16],
    row: usize,
    w: usize,
    section: &mut [u16],
    at: usize,
) -> usize
    requires { WordsAt words.now lo hi w × (row + w + w ≤ length map.now) × (at + 2 * (hi - lo) ≤ length section.old) }
    ensures { Wrote section.old at (pairs_of map.now w row (part words.now lo (hi - lo)))
        section.new result }
{
    let mut to = at;
    for k in lo..hi {
        let i = usize::from(words[k]);
        section[to] = map[row + i];
        section[to + 1] = map[row + w + i];
        to += 2;
    }
    to
}

// Their symbols. A loop of its own: each edge has two numbers in the pairs and one here, and a function of both would promise neither
// plainly.
pub fn put_symbols(
    words: &[u16],
    lo: usize,
    hi: usize,
    labels: &[u16],
    n: usize,
    t: usize,
    section: &mut [u16],
    at: usize,
) -> usize
    requires { WordsAt words.now lo hi (length labels.now) × (at + (hi - lo) ≤ length section.old) }
    ensures { Wrote section.old at (symbols_of labels.now n t (part words.now lo (hi - lo)))
        section.new result }
{
    let mut to = at;
    for k in lo..hi {
        let i = usize::from(words[k]);
        section[to] = label::symbol(labels[i], n, t);
        to += 1;
    }
    to
}
