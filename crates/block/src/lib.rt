// What the symbols of a block cost, ranked by the symbol. Symbols are compared by `comparing::compare` alone.

#![tactic(auto)]

ghost use Rattle.std.specs.Prelude.{◌≡◌, ◌+◌, ◌*◌, ◌≤◌};
ghost use Rattle.trellis.specs.Bounds.{most_symbols};
ghost use Rattle.paths.specs.Inner.Ranked.{distance_unit, top_rank, PriceRoom};
ghost use Rattle.block.specs.Inner.Prices.{Prices};

pub use masks::put_masks;
use paths::{DISTANCE_UNIT, LABEL_UNIT};
use received::bit_at;
pub use received::fits;
use trellis::{MOST_Q, MOST_SYMBOLS};

// A cost and, below it, the symbol at its place in the label.
#[tactic(auto, using(crate::proofs::Costs::symbol_least))]
fn price(cost: u32, symbol: u64, weight: u64) -> u64
    requires { (cost ≤ 1) × (symbol ≤ 3) × (weight ≤ distance_unit) }
    ensures { (result ≡ cost * distance_unit + symbol * weight) × (result ≤ top_rank) }
{
    u64::from(cost) * DISTANCE_UNIT + symbol * weight
}

// What the symbols add, four a step: the cost ranks first, then the symbol. A symbol costs 1 where the label that has it throughout differs
// from the received one, so four comparisons tell what all symbols cost. Places of other steps are left as they were.
pub fn put_prices(n: usize, received: u16, erased: u8, prices: &mut [u64; MOST_Q * MOST_SYMBOLS])
    requires { (n ≤ most_symbols) × PriceRoom prices.old }
    ensures { Prices n received erased prices.new }
{
    let zeros = comparing::compare(received, 0x0000, erased);
    let ones = comparing::compare(received, 0x5555, erased);
    let twos = comparing::compare(received, 0xaaaa, erased);
    let threes = comparing::compare(received, 0xffff, erased);
    let mut weight = LABEL_UNIT;
    for t in (0..n).rev() {
        prices[4 * t] = price(bit_at(zeros.mask, n, t), 0, weight);
        prices[4 * t + 1] = price(bit_at(ones.mask, n, t), 1, weight);
        prices[4 * t + 2] = price(bit_at(twos.mask, n, t), 2, weight);
        prices[4 * t + 3] = price(bit_at(threes.mask, n, t), 3, weight);
        weight *= 4;
    }
}
