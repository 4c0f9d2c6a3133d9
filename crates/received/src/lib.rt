// Whether what was received for a block fits its section: a label whose erased symbols are 0, and a mask with a bit for each symbol.

#![tactic(auto)]

ghost use Rattle.std.specs.Prelude.{◌≡◌, ◌^◌, ◌<◌, ◌≤◌, ltb, eqb};
ghost use Rattle.trellis.specs.Bounds.{most_symbols};
ghost use Rattle.trellis.specs.Lists.{one_if, first};
ghost use Rattle.trellis.specs.Comparing.{marked_at};
ghost use Rattle.received.specs.Received.{stray, fits_block};

// The bit of symbol t in a mask of n bits.
pub fn bit_at(mask: u8, n: usize, t: usize) -> u32
    requires { (t < n) × (n ≤ most_symbols) }
    ensures { (result ≡ one_if (marked_at n t mask)) × (result ≤ 1) }
{
    u32::from(mask >> (n - 1 - t) & 1)
}

// Whether the mask has n bits.
fn mask_fits(mask: u8, n: usize) -> bool
    ensures { result ≡ ltb mask (2 ^ n) }
{
    n >= 8 || mask >> n == 0
}

#[tactic(auto, unfolding(crate::specs::Received::stray))]
fn is_stray(received: u16, erased: u8, n: usize, t: usize) -> bool
    requires { (t < n) × (n ≤ most_symbols) }
    ensures { result ≡ stray n received erased t }
{
    bit_at(erased, n, t) == 1 && label::symbol(received, n, t) != 0
}

// Whether no erased symbol is other than 0.
fn is_clear(received: u16, erased: u8, n: usize) -> bool
    requires { n ≤ most_symbols }
    ensures { result ≡ eqb (first (stray n received erased) n) n }
{
    (0..n).all(|t| !is_stray(received, erased, n, t))
}

// Whether a received label and mask fit a section of n symbols below q.
#[tactic(auto, unfolding(crate::specs::Received::fits_block))]
pub fn fits(q: u16, n: usize, received: u16, erased: u8) -> bool
    requires { n ≤ most_symbols }
    ensures { result ≡ fits_block n received erased q }
{
    packed::is_label(received, q, n) && mask_fits(erased, n) && is_clear(received, erased, n)
}
