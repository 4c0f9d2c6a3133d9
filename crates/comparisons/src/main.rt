// Compares each of the 65,536 labels of eight symbols with one label, so that two labels differ in every way that there is, under eight
// erasure masks: all symbols at once by `comparing::compare`, and one at a time by `label::symbol`. Prints how many comparisons there were,
// the sum of their distances, and how many of them came out otherwise one symbol at a time, in the mask or in the distance.

#![tactic(auto)]

ghost use Rattle.std.specs.Prelude.{◌≡◌, ◌*◌, ◌≤◌};

use comparing::Comparison;
use std::io;

// The symbols 0 to 3, twice.
const OTHER: u16 = 0x1b1b;

// Each symbol is erased in half of these masks, and each two in every way.
const ERASED: [u8; 8] = [0x00, 0xff, 0x0f, 0xf0, 0x33, 0xcc, 0x55, 0xaa];

const COMPARISONS: u32 = 8 * 65536;

fn at_once(x: u16, erased: u8) -> Comparison
    ensures { result.distance ≤ 8 }
{
    comparing::compare(x, OTHER, erased)
}

// The bit of the first symbol is the highest one of the mask.
fn one_at_a_time(x: u16, erased: u8) -> Comparison {
    let mut mask: u8 = 0;
    let mut distance: u32 = 0;
    for t in 0..8 {
        let is_erased = erased & (0x80 >> t) != 0;
        let differs = !is_erased && label::symbol(x, 8, t) != label::symbol(OTHER, 8, t);
        mask = (mask << 1) | u8::from(differs);
        distance += u32::from(differs);
    }
    Comparison { mask, distance }
}

// All labels compared under one mask: how many comparisons there were, the sum of the distances, and how many came out otherwise one
// symbol at a time.
fn compare_all(erased: u8) -> (u32, u32, u32)
    ensures { (result.0 ≡ 65536) × (result.1 ≤ 8 * 65536) × (result.2 ≤ 65536) }
{
    let mut comparisons: u32 = 0;
    let mut sum: u32 = 0;
    let mut otherwise: u32 = 0;
    for x in 0..=u16::MAX {
        let found = at_once(x, erased);
        comparisons += 1;
        sum += found.distance;
        otherwise += u32::from(found != one_at_a_time(x, erased));
    }
    (comparisons, sum, otherwise)
}

fn put_line(rt: &impl Print, name: &str, x: u32) -> io::Result<()> {
    println!(rt; "{name} {x}")
}

fn main(rt: HostRuntime) -> io::Result<()> {
    let mut comparisons: u32 = 0;
    let mut sum: u32 = 0;
    let mut otherwise: u32 = 0;
    for erased in ERASED {
        let (made, distances, others) = compare_all(erased);
        comparisons += made;
        sum += distances;
        otherwise += others;
    }
    // No mask was left out: the sums above would not show one under which all symbols are erased.
    prove!(comparisons == COMPARISONS);
    put_line(&rt, "comparisons", comparisons)?;
    put_line(&rt, "distances", sum)?;
    put_line(&rt, "otherwise", otherwise)
}
