// The edges of a table of sums, step by step. An edge is one number, (from, symbol, to), and the edges of a step are the sums of those that
// the rows take; so in order they are the sums of a reduced basis of these. No word is looked at.

#![tactic(auto)]

ghost use Rattle.std.specs.Prelude.{◌≡◌, ◌+◌, ◌*◌, ◌^◌, ◌≤◌, ◌<◌, length};
ghost use Rattle.trellis.specs.Inner.Write.{Wrote};
ghost use Rattle.rows.specs.Sums.{sums};
ghost use Rattle.rows.specs.Inner.Edges.{edge_number};
ghost use Rattle.parity.specs.Inner.Front.{Front};
ghost use Rattle.row_arcs.specs.Inner.Arcs.{arcs_of, StepAsked, EdgesAsked, AllEdges};

use parity::{ROW_BITS, bit_at};
use row_sums::put_sums;
use takers::Edges;
use trellis::MOST_SYMBOLS;

// An edge as one number: from, the symbol's bit, to, where the vertices at the step's end are below 2^dim.
fn edge_number(from: u16, symbol: u16, to: u16, dim: usize) -> u16
    requires { (dim ≤ 10) × (edge_number dim from symbol to < 2 ^ 16) }
    ensures { result ≡ edge_number dim from symbol to }
{
    ((2 * from + symbol) << dim) + to
}

// The edges that the rows take at a step whose two rows of the map begin at `row`; the symbol is bit `cut`.
#[tactic(auto, using(crate::proofs::RowArcs::word_below, crate::proofs::RowArcs::words_few))]
fn arcs_of(
    map: &[u16],
    row: usize,
    w: usize,
    rows: &[u16],
    cut: usize,
    dim: usize,
) -> [u16; ROW_BITS]
    requires { StepAsked map.now row w rows.now cut dim }
    ensures { Front (arcs_of map.now row w rows.now cut dim) result }
{
    let mut arcs = [0u16; ROW_BITS];
    let mut i: usize = 1;
    for (b, &x) in rows.iter().enumerate() {
        arcs[b] = edge_number(map[row + i], bit_at(x, cut), map[row + w + i], dim);
        i += i;
    }
    arcs
}

// The edges of a step in their order, from place `at` on; gives the place behind them.
fn take_step(
    map: &[u16],
    row: usize,
    w: usize,
    rows: &[u16],
    cut: usize,
    dim: usize,
    out: &mut [u16],
    at: usize,
) -> usize
    requires { StepAsked map.now row w rows.now cut dim × (at + w ≤ length out.old) }
    ensures { Wrote out.old at (sums (arcs_of map.now row w rows.now cut dim))
        out.new result }
{
    let arcs = arcs_of(map, row, w, rows, cut, dim);
    let columns = parity::check_all(&arcs[..rows.len()]);
    let reduced = reduced_rows::reduced(&columns);
    put_sums(reduced.as_slice(), out, at)
}

// The edges of all n steps, one step behind another, and how many each step has.
pub fn take_edges(
    map: &[u16],
    w: usize,
    rows: &[u16],
    bits: usize,
    n: usize,
    dims: &[usize; MOST_SYMBOLS + 1],
    out: &mut [u16],
) -> Edges
    requires { EdgesAsked map.now w rows.now bits n dims.now × (8192 ≤ length out.old) }
    ensures { AllEdges map.now w rows.now bits n dims.now out.old out.new
        result.total result.counts }
{
    let mut counts = [0u16; MOST_SYMBOLS];
    let mut at: usize = 0;
    for t in 0..n {
        let end = take_step(map, t * w, w, rows, n - t - 1 + bits, dims[t + 1], out, at);
        counts[t] = (end - at) as u16;
        at = end;
    }
    Edges { total: at, counts }
}
