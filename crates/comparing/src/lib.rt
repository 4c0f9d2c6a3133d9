// Two packed labels compared under an erasure mask, all symbols at once: the mask of those that differ, and their number, the distance.

#![tactic(auto)]

ghost use Rattle.std.specs.Prelude.{◌≡◌, ℕ, ◌-◌, ◌^◌, ◌<◌, ◌≤◌};
ghost use Rattle.trellis.specs.Bounds.{most_symbols};
ghost use Rattle.trellis.specs.Comparing.{differing, Compared};
ghost use Rattle.comparing.specs.Inner.Masks.{MaskedOr};

// What a mask keeps of x and of y.
fn masked_or(x: u16, y: u16, mask: u16) -> u16
    ensures { MaskedOr x y mask result }
{
    (x | y) & mask
}

// The mask of the symbols in which x and y differ, all eight at once. A symbol differs if either of its bits does, so the higher bit is
// folded onto the lower one. Then the eight fields of two bits, with one bit in each, are drawn together: four fields of four bits have two
// in each, two of eight have four, and one of sixteen has all.
fn differences(x: u16, y: u16) -> u8
    ensures { result ≡ differing 8 x 0 y }
{
    let unlike = x ^ y;
    let ones = masked_or(unlike, unlike >> 1, 0x5555);
    let twos = masked_or(ones, ones >> 1, 0x3333);
    let fours = masked_or(twos, twos >> 2, 0x0f0f);
    masked_or(fours, fours >> 4, 0x00ff) as u8
}

// Two labels compared: the mask of the symbols that differ and are not erased, the first symbol highest, and their number.
#[derive(Clone, Copy, PartialEq, Eq)]
pub struct Comparison {
    pub mask: u8,
    pub distance: u32,
}

// The labels x and y compared under an erasure mask. As the last symbol is lowest in labels and masks, what it says is true for labels of
// any number of symbols.
pub fn compare(x: u16, y: u16, erased: u8) -> Comparison
    ensures { (n : ℕ) → n ≤ most_symbols → x < 4 ^ n → y < 4 ^ n → Compared n x erased y result.mask result.distance }
{
    let mask = differences(x, y) & !erased;
    Comparison {
        mask,
        distance: u8::count_ones(mask),
    }
}
