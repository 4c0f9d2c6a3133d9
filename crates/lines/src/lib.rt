// The lines that document 01 prints: the sizes of a section, and a refusal. A function that puts lines puts bytes into a lent buffer, as
// far as it has room for them, and gives the place behind them.

#![tactic(auto)]

ghost use Rattle.std.specs.Prelude.{◌≡◌, suc, ◌-◌, ◌≤◌};
ghost use Rattle.trellis.specs.Selections.{additions, selections};
ghost use Rattle.trellis.specs.Layout.{n_of, joined_up};
ghost use Rattle.text.specs.Inner.Put.{Put};
ghost use Rattle.lines.specs.Text.{entering, depth_line, sums, sizes_of};

use numbers::number;
pub use section_costs::{additions_of, selections_of};
use text::put_line;

fn edges_entering(sizes: &[u16], n: usize, t: usize) -> usize
    requires { (n ≡ n_of sizes.now) × (n ≤ 65535) × (t ≤ n) }
    ensures { result ≡ entering sizes.now t }
{
    if t == 0 {
        return 0;
    }
    usize::from(number(sizes, 3 + n + t))
}

fn put_depths(sizes: &[u16], n: usize, text: &mut [u8], at: usize) -> usize
    requires { (n ≡ n_of sizes.now) × (n ≤ 65535) }
    ensures { Put text.old at (joined_up (depth_line sizes.now) (suc n)) text.new result }
{
    let mut end = at;
    for t in 0..=n {
        let numbers = [
            t,
            usize::from(number(sizes, 3 + t)),
            edges_entering(sizes, n, t),
        ];
        end = put_line(text, end, b"depth", &numbers);
    }
    end
}

fn put_sums(sizes: &[u16], text: &mut [u8], at: usize) -> usize
    ensures { Put text.old at (sums sizes.now) text.new result }
{
    let additions = [additions_of(sizes)];
    let end = put_line(text, at, b"additions", &additions);
    let selections = [selections_of(sizes)];
    put_line(text, end, b"selections", &selections)
}

// The sizes of a section, from its first numbers, and how many words it has.
pub fn put_sizes(sizes: &[u16], words: usize, text: &mut [u8]) -> usize
    ensures { Put text.old 0 (sizes_of words sizes.now) text.new result }
{
    let n = usize::from(number(sizes, 1));
    let numbers = [
        usize::from(number(sizes, 0)),
        n,
        usize::from(number(sizes, 2)),
        words,
    ];
    let sized = put_line(text, 0, b"section", &numbers);
    let end = put_depths(sizes, n, text, sized);
    put_sums(sizes, text, end)
}
