// Runs of words that share a beginning, at one depth: whether those with a common ending agree, and the numbers of the vertices that they
// share.

#![tactic(auto)]

ghost use Rattle.std.specs.Prelude.{◌≡◌, ◌+◌, ◌-◌, ◌<◌, ◌≤◌, eqb};
ghost use Rattle.trellis.specs.Bounds.{most_words};
ghost use Rattle.trellis.specs.Lists.{one_if};
ghost use Rattle.runs.specs.Inner.Runs.{goes_on};
ghost use Rattle.depth_runs.specs.Inner.Rows.{at, first_word_in, agrees_test, runs_agree_test, Backward, ToNumber, VerticesNumbered};

use trellis::MOST_WORDS;

// Whether the word after i is of i's run.
fn goes_on(starts: &[u16; MOST_WORDS], w: usize, i: usize) -> bool
    requires { (i < w) × (w ≤ most_words) }
    ensures { result ≡ goes_on w (at starts.now) i }
{
    i + 1 < w && starts[i + 1] == starts[i]
}

// The first word of i's vertex.
fn first_word(starts: &[u16; MOST_WORDS], firsts: &[u16; MOST_WORDS], w: usize, i: usize) -> usize
    requires { (i < w) × (w ≤ most_words) × Backward w starts.now firsts.now }
    ensures { result ≡ first_word_in starts.now firsts.now i }
{
    let first = usize::from(firsts[i]);
    usize::from(starts[first])
}

// Whether i's run agrees at i with the run of its first word.
fn agrees(starts: &[u16; MOST_WORDS], firsts: &[u16; MOST_WORDS], w: usize, i: usize) -> bool
    requires { (i < w) × (w ≤ most_words) × Backward w starts.now firsts.now }
    ensures { result ≡ agrees_test w (at starts.now) (first_word_in starts.now firsts.now) i }
{
    let start = usize::from(starts[i]);
    let own = first_word(starts, firsts, w, i);
    if own != first_word(starts, firsts, w, start) {
        return false;
    }
    goes_on(starts, w, i) == goes_on(starts, w, own + (i - start))
}

pub fn runs_agree(starts: &[u16; MOST_WORDS], firsts: &[u16; MOST_WORDS], w: usize) -> bool
    requires { (w ≤ most_words) × Backward w starts.now firsts.now }
    ensures { result ≡ runs_agree_test w starts.now firsts.now }
{
    for i in 0..w {
        if !agrees(starts, firsts, w, i) {
            return false;
        }
    }
    true
}

// One number more where i is the first word of its vertex.
fn numbered(count: u16, first: usize, i: usize) -> u16
    requires { count ≤ most_words }
    ensures { result ≡ count + one_if (eqb first i) }
{
    if first == i { count + 1 } else { count }
}

// The number of each word's vertex, from `place` on; gives how many there are.
pub fn put_numbers(
    starts: &[u16; MOST_WORDS],
    firsts: &[u16; MOST_WORDS],
    w: usize,
    map: &mut [u16],
    place: usize,
) -> u16
    requires { ToNumber w place starts.now firsts.now map.old }
    ensures { VerticesNumbered place w (first_word_in starts.now firsts.now) map.old
        map.new result }
{
    let mut count: u16 = 0;
    for i in 0..w {
        let first = first_word(starts, firsts, w, i);
        map[place + i] = count; // what is read back if i is the first word of its vertex
        map[place + i] = map[place + first];
        count = numbered(count, first, i);
    }
    count
}
