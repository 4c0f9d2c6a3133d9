// What a beginning costs at least in the end, as the sum of what is paid, the next edge and the least that is left behind it.

#![tactic(auto)]

ghost use Rattle.std.specs.Prelude.{◌≡◌, ◌+◌, ◌*◌, ◌/◌, ◌<◌, ◌≤◌, get_or};
ghost use Rattle.trellis.specs.Bounds.{most_words, most_q, most_symbols};
ghost use Rattle.paths.specs.Inner.Ranked.{distance_unit, PriceRoom};
ghost use Rattle.dearest.specs.Inner.Items.{code_in};
ghost use Rattle.edges.specs.Inner.Edges.{meant_edge};
ghost use Rattle.codes.specs.Inner.Codes.{code_vertex};
ghost use Rattle.least_rows.specs.Inner.Rows.{row_at};
ghost use Rattle.totals.specs.Inner.Totals.{paid_for, total_of};

use dearest::cost_of;
use edges::Edge;
use least_rows::ROWS;
use paths::DISTANCE_UNIT;
use trellis::MOST_WORDS;

// The least cost from vertex v of depth t to the end.
fn least_from(rows: &[u32; ROWS], t: usize, v: usize) -> u64
    requires { (t ≤ most_symbols) × (v < most_words) }
    ensures { (result ≡ row_at rows.now t v) × (result < 4294967296) }
{
    u64::from(rows[MOST_WORDS * t + v])
}

// What is paid for item x, which stands at this vertex of depth t.
pub fn paid(rows: &[u32; ROWS], t: usize, vertex: usize, x: u64) -> u64
    requires { (t < most_symbols) × (vertex ≡ code_vertex (code_in x)) }
    ensures { (result ≡ paid_for rows.now t x) × (result < 4294967296) }
{
    cost_of(x).saturating_sub(least_from(rows, t, vertex))
}

// What a symbol costs as symbol t.
fn price_of(prices: &[u64], t: usize, symbol: usize) -> u64
    requires { (t < most_symbols) × (symbol < most_q) × PriceRoom prices.now }
    ensures { (result ≡ get_or prices.now (4 * t + symbol) 0 / distance_unit) × (result < 4294967296) }
{
    prices[4 * t + symbol] / DISTANCE_UNIT
}

// What a beginning costs at least in the end that goes on along an edge of step t.
pub fn total(rows: &[u32; ROWS], prices: &[u64], t: usize, paid: u64, e: Edge) -> u64
    requires { (t < most_symbols) × (paid < 4294967296) × PriceRoom prices.now
        × (e.symbol < most_q) × (e.to < most_words) }
    ensures { result ≡ total_of rows.now prices.now t paid (meant_edge e) }
{
    paid + price_of(prices, t, e.symbol) + least_from(rows, t + 1, e.to)
}
