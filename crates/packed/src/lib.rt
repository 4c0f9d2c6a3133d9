// Labels put together and told from other numbers: a symbol put behind a label, and whether a number is a label of n symbols below q.

#![tactic(auto)]

ghost use Rattle.std.specs.Prelude.{◌≡◌, ◌-◌, ◌<◌, min};
ghost use Rattle.trellis.specs.Label.{is_label};
ghost use Rattle.packed.specs.Inner.Packed.{appended};

// The label with the symbol s behind it.
pub fn append(label: u16, s: u16) -> u16
    ensures { result ≡ appended label s }
{
    (label << 2) | (s & 3)
}

// n, but at most the eight symbols that two bytes hold.
fn held(n: usize) -> usize
    ensures { result ≡ min n 8 }
{
    if n < 8 { n } else { 8 }
}

// Whether the label is one of n symbols below q. It is enough to look at eight symbols: those in front of them are zeros, and a zero is
// below q if the last symbol is.
pub fn is_label(label: u16, q: u16, n: usize) -> bool
    ensures { result ≡ is_label q n label }
{
    let mut rest = label;
    for _ in 0..held(n) {
        if (rest & 3) >= q {
            return false;
        }
        rest >>= 2;
    }
    rest == 0
}
