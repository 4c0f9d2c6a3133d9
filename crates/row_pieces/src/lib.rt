// The pairs and the symbols of one step, from edges as numbers.

#![tactic(auto)]

ghost use Rattle.std.specs.Prelude.{◌≡◌, ◌+◌, ◌*◌, ◌/◌, ◌^◌, ◌≤◌, length};
ghost use Rattle.trellis.specs.Inner.Write.{Wrote};
ghost use Rattle.row_pieces.specs.Inner.Pieces.{pairs_from, symbols_from};

use parity::{bit_at, low_bits};

// Where an edge comes from; where it leads is its last bits.
fn from_of(edge: u16, dim: usize) -> u16
    requires { dim ≤ 10 }
    ensures { result ≡ edge / 2 ^ dim / 2 }
{
    (edge >> dim) >> 1
}

// The pairs of edges, from place `at` on.
pub fn put_pairs(edges: &[u16], dim: usize, section: &mut [u16], at: usize) -> usize
    requires { (dim ≤ 10) × (at + 2 * length edges.now ≤ length section.old) }
    ensures { Wrote section.old at (pairs_from dim edges.now) section.new result }
{
    let mut to = at;
    for &edge in edges {
        section[to] = from_of(edge, dim);
        section[to + 1] = low_bits(edge, dim);
        to += 2;
    }
    to
}

// Their symbols. A loop of its own, as in `pieces`.
pub fn put_symbols(edges: &[u16], dim: usize, section: &mut [u16], at: usize) -> usize
    requires { (dim ≤ 10) × (at + length edges.now ≤ length section.old) }
    ensures { Wrote section.old at (symbols_from dim edges.now) section.new result }
{
    for (k, &edge) in edges.iter().enumerate() {
        section[at + k] = bit_at(edge, dim);
    }
    at + edges.len()
}
