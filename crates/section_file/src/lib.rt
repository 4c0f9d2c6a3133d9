// A section in numbers, as far as its counts and its end states go: whether they are those of a usable section, and its view, which says
// where its parts stand. The definition of usable, and what whoever reads a usable section needs to know of it.

#![tactic(auto)]

ghost use Rattle.std.specs.Prelude.{◌≡◌, ◌+◌, ◌*◌, ◌≤◌, get_or};
ghost use Rattle.trellis.specs.Bounds.{most_words, most_symbols};
ghost use Rattle.trellis.specs.Layout.{n_of};
ghost use Rattle.trellis.specs.Lists.{all, within};
ghost use Rattle.section_file.specs.Usable.{sizes_right, counts_right};
ghost use Rattle.section_file.specs.Inner.View.{view_of};

pub mod states;

pub use edges::{Edge, Step};
use numbers::{number, total};
use trellis::{LEAST_Q, MOST_Q, MOST_STATES, MOST_SYMBOLS, MOST_WORDS};

// A section's q and n, the places where its root states, its goal states, its pairs (from, to) and its symbols begin, how many edges it
// has, and where it ends.
#[derive(Clone, Copy)]
pub struct View {
    pub q: u16,
    pub n: usize,
    pub roots: usize,
    pub goals: usize,
    pub pairs: usize,
    pub symbols: usize,
    pub edges: usize,
    pub end: usize,
}

// A section: its numbers, at the front of a slice, and its view.
#[derive(Clone, Copy)]
pub struct Section<'a> {
    pub numbers: &'a [u16],
    pub view: View,
}

#[tactic(auto, unfolding(crate::specs::Usable::sizes_right, trellis::specs::Lists::within))]
pub fn sizes_right(l: &[u16]) -> bool
    ensures { result ≡ sizes_right l.now }
{
    (LEAST_Q..=MOST_Q).contains(&usize::from(number(l, 0)))
        && (1..=MOST_SYMBOLS).contains(&usize::from(number(l, 1)))
        && (1..=MOST_STATES).contains(&usize::from(number(l, 2)))
}

// Whether the numbers from a place on are all 1 to 1,024.
fn all_counts(l: &[u16], at: usize, count: usize) -> bool
    requires { (at ≤ 100) × (count ≤ 100) }
    ensures { result ≡ all (λ t. within 1 most_words (get_or l.now (at + t) 0)) count }
{
    (0..count).all(|t| (1..=MOST_WORDS).contains(&usize::from(number(l, at + t))))
}

pub fn counts_right(l: &[u16], n: usize) -> bool
    requires { (n ≡ n_of l.now) × (n ≤ most_symbols) }
    ensures { result ≡ counts_right l.now }
{
    all_counts(l, 3, n + 1) && all_counts(l, 4 + n, n)
}

// Each part stands behind the one before it.
pub fn view_of(l: &[u16], n: usize) -> View
    requires { (n ≡ n_of l.now) × (n ≤ most_symbols) }
    ensures { result ≡ view_of l.now }
{
    let q = number(l, 0);
    let edges = total(l, 4 + n, n);
    let roots = 4 + 2 * n;
    let goals = roots + usize::from(number(l, 3));
    let pairs = goals + usize::from(number(l, 3 + n));
    let symbols = pairs + 2 * edges;
    let end = symbols + edges;
    View {
        q,
        n,
        roots,
        goals,
        pairs,
        symbols,
        edges,
        end,
    }
}
