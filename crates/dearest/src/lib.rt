// Items as numbers, a cost above 32 bits that are the caller's; and the last dearest of those in an array.

#![tactic(auto)]

ghost use Rattle.std.specs.Prelude.{◌≡◌, ◌<◌, ◌≤◌};
ghost use Rattle.trellis.specs.Bounds.{most_paths};
ghost use Rattle.dearest.specs.Inner.Items.{cost_unit, cost_in, code_in, item_of, LastDearest};
ghost use Rattle.dearest.specs.Inner.Loops.{Later, CheaperFrom};

use trellis::MOST_PATHS;

const COST_UNIT: u64 = 4294967296;

pub fn cost_of(item: u64) -> u64
    ensures { (result ≡ cost_in item) × (result < cost_unit) }
{
    item / COST_UNIT
}

pub fn code_of(item: u64) -> u32
    ensures { result ≡ code_in item }
{
    (item % COST_UNIT) as u32
}

pub fn item(cost: u64, code: u32) -> u64
    requires { cost < cost_unit }
    ensures { result ≡ item_of cost code }
{
    cost * COST_UNIT + u64::from(code)
}

// A place and the cost of the item there.
#[derive(Clone, Copy)]
struct Found {
    at: usize,
    cost: u64,
}

// Of two places the one of the dearer item, the later place where they cost the same.
fn dearer(found: Found, i: usize, cost: u64) -> Found
    ensures { Later found.at found.cost i cost result.at result.cost }
{
    if cost < found.cost {
        found
    } else {
        Found { at: i, cost }
    }
}

// The place of the last dearest of the first `count` items.
pub fn last_dearest(items: &[u64; MOST_PATHS], count: usize) -> usize
    requires { (0 < count) × (count ≤ most_paths) }
    ensures { LastDearest items.now count result }
{
    let mut found = Found {
        at: 0,
        cost: cost_of(items[0]),
    };
    for i in 1..count {
        found = dearer(found, i, cost_of(items[i]));
    }
    found.at
}

// The place of the last dearest of the first `count` items, where none costs more than `cost`, and those from place `at` on cost less.
pub fn dearest_before(items: &[u64; MOST_PATHS], count: usize, at: usize, cost: u64) -> usize
    requires { CheaperFrom items.now count at cost × (count ≤ most_paths) }
    ensures { LastDearest items.now count result }
{
    for i in (0..at).rev() {
        if cost_of(items[i]) >= cost {
            return i;
        }
    }
    last_dearest(items, count)
}
