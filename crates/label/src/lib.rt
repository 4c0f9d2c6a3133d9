// Symbols and packed labels, taken apart and put together by shifts and masks. Every function answers for all arguments, by an equation
// with the definitions of labels in trellis: symbols are base-4 digits, the first one highest.

#![tactic(auto)]

ghost use Rattle.std.specs.Prelude.{◌≡◌, ◌-◌, ◌/◌, ◌%◌, ◌^◌, ◌<◌};
ghost use Rattle.trellis.specs.Label.{symbol, front, back};
ghost use Rattle.label.specs.Inner.Labels.{InOrder};

// How many symbols stand behind depth t.
fn behind(n: usize, t: usize) -> usize
    ensures { result ≡ n - t }
{
    if t < n { n - t } else { 0 }
}

// The label without its last `low` symbols. A shift by the whole width is not allowed, and nothing is left there.
fn without_last(label: u16, low: usize) -> u16
    ensures { result ≡ label / 4 ^ low }
{
    if low < 8 { label >> (2 * low) } else { 0 }
}

// The last `low` symbols of the label.
fn only_last(label: u16, low: usize) -> u16
    ensures { result ≡ label % 4 ^ low }
{
    if low < 8 {
        label & ((1 << (2 * low)) - 1)
    } else {
        label
    }
}

// Symbol t of a label of n symbols, counted from 0.
pub fn symbol(label: u16, n: usize, t: usize) -> u16
    ensures { result ≡ symbol n t label }
{
    without_last(label, behind(behind(n, t), 1)) & 3
}

// The first t symbols of a label of n symbols.
pub fn front(label: u16, n: usize, t: usize) -> u16
    ensures { result ≡ front n t label }
{
    without_last(label, behind(n, t))
}

// The symbols behind depth t.
pub fn back(label: u16, n: usize, t: usize) -> u16
    ensures { result ≡ back n t label }
{
    only_last(label, behind(n, t))
}

// Whether the label x comes before the label y. Symbols are compared from the first one on, as the digits of numbers are.
pub fn precedes(x: u16, y: u16) -> bool
    ensures { InOrder x y result }
{
    x < y
}
