// Numbers: held to bounds, and read at any place of a list of them, such as a section. A number past the end reads as 0, so that reading
// asks for nothing.

#![tactic(auto)]

ghost use Rattle.std.specs.Prelude.{◌≡◌, ◌+◌, ◌*◌, ◌≤◌, ◌<◌, get_or};
ghost use Rattle.trellis.specs.Lists.{sum, within};

// A cast and its bound in one promise, so that callers need no proof of it.
pub fn wide(x: u16) -> usize
    ensures { (result ≡ x) × (result < 65536) }
{
    usize::from(x)
}

pub fn widened(x: u8) -> usize
    ensures { (result ≡ x) × (result < 256) }
{
    usize::from(x)
}

pub fn is_within(low: usize, high: usize, x: usize) -> bool
    ensures { result ≡ within low high x }
{
    (low..=high).contains(&x)
}

// The number at place i.
pub fn number(l: &[u16], i: usize) -> u16
    ensures { result ≡ get_or l.now i 0 }
{
    l.get(i).copied().unwrap_or(0)
}

// The sum of `count` numbers from place `at` on.
pub fn total(l: &[u16], at: usize, count: usize) -> usize
    requires { (at ≤ 100000) × (count ≤ 100000) }
    ensures { (result ≡ sum (λ t. get_or l.now (at + t) 0) 0 count) × (result ≤ 65535 * count) }
{
    let mut sum: usize = 0;
    for t in 0..count {
        sum += wide(number(l, at + t));
    }
    sum
}
