// One inner depth of the map of a table of sums: words share a vertex if their syndromes before the cut agree, and the vertices of twice as
// many words are those of the first half with one number added.

#![tactic(auto)]

ghost use Rattle.std.specs.Prelude.{◌≡◌, ◌==◌, ◌+◌, ◌*◌, ◌/◌, ◌^◌, ◌<◌, length, get_or, position, IfSome, MatchOption};
ghost use Rattle.row_depth.specs.Inner.Depth.{DepthAsked, DepthPut};

use parity::ROW_BITS;
use row_sums::double;
use trellis::MOST_WORDS;

// The bits of x before the cut.
fn before_cut(x: u16, cut: usize) -> u16
    requires { cut < 16 }
    ensures { result ≡ x / 2 ^ cut * 2 ^ cut }
{
    (x >> cut) << cut
}

// The first of the numbers that is x.
fn find(seen: &[u16], x: u16) -> Option<usize>
    ensures { result ≡ position (λ s. s == x) seen.now }
{
    seen.iter().position(|&s| s == x)
}

// The vertex of the new row: that of the word found, or the next one.
pub fn added(map: &[u16], place: usize, found: Option<usize>, dim: usize) -> u16
    requires { IfSome found (λ o. place + o < length map.now) × (dim < 16) }
    ensures { MatchOption found (result ≡ 2 ^ dim) (λ o. result ≡ get_or map.now (place + o) 0) }
{
    match found {
        Some(o) => map[place + o],
        None => 1 << dim,
    }
}

// The dimension then.
pub fn counted(dim: usize, found: Option<usize>) -> usize
    requires { dim < 16 }
    ensures { MatchOption found (result ≡ dim + 1) (λ o. result ≡ dim) }
{
    match found {
        Some(_) => dim,
        None => dim + 1,
    }
}

// The vertices of all words at a depth with `cut` bits behind it, from `place` on; gives the dimension.
pub fn put_depth(
    columns: &[u16; ROW_BITS],
    rows: &[u16],
    cut: usize,
    map: &mut [u16],
    place: usize,
) -> usize
    requires { DepthAsked columns.now rows.now cut map.old place }
    ensures { DepthPut columns.now rows.now cut map.old place map.new result }
{
    let mut seen = [0u16; MOST_WORDS];
    map[place] = 0;
    let mut dim: usize = 0;
    let mut w: usize = 1;
    for &row in rows {
        let x = parity::syndrome(columns, before_cut(row, cut));
        let found = find(&seen[..w], x);
        let c = added(map, place, found, dim);
        dim = counted(dim, found);
        double(map, place, w, c);
        double(&mut seen, 0, w, x);
        w += w;
    }
    dim
}
