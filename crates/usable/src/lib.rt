// Which sections are usable, by document 01: `usable_at` answers for the section that starts at any place of a slice, whatever numbers the
// slice has. It looks at each number a few times, and promises an equation with document 01's definition.

#![tactic(auto)]

ghost use Rattle.std.specs.Prelude.{◌≡◌, ◌+◌, ◌*◌, ◌<◌, drop};
ghost use Rattle.trellis.specs.Layout.{edges_before};
ghost use Rattle.trellis.specs.Lists.{all};
ghost use Rattle.edges.specs.Inner.Edges.{edge_in};
ghost use Rattle.section_file.specs.Inner.View.{Laid};
ghost use Rattle.section_file.specs.Inner.Steps.{step_right};
ghost use Rattle.usable.specs.Inner.Steps.{edges_right, StepThere};
ghost use Rattle.usable.specs.Inner.Part.{part_of};

use edges::Step;
use numbers::number;
use section_file::states::states_right;
use section_file::{Section, View, counts_right, sizes_right, view_of};
use twins::{covers, twins_right};

// The edges of one step. That they are within bounds is checked first: their vertices and symbols are places in the arrays of marks.
// Twins are looked for at the depth that the step reaches and at the depth that it leaves, where these are inner ones.
#[tactic(auto, unfolding(crate::specs::Inner::Steps::edges_right), using(crate::proofs::Steps::small_edges))]
fn edges_right(step: Step, q: usize, froms: usize, tos: usize, reached: bool, left: bool) -> bool
    requires { StepThere step.pairs.now step.symbols.now step.count q froms tos }
    ensures { result ≡ edges_right (edge_in step.entry.pairs.now step.entry.symbols.now) step.entry.count q froms tos reached left }
{
    step.all_inside(q, froms, tos)
        && step.all_above()
        && covers(step, false, froms)
        && covers(step, true, tos)
        && twins_right(reached, step, false)
        && twins_right(left, step, true)
}

// One step, whose edges stand behind those of the steps before it.
#[tactic(auto, using(crate::proofs::Steps::step_places))]
fn step_right(section: Section, t: usize, before: usize) -> bool
    requires { Laid section.numbers.now section.view × (t < section.view.n) × (before ≡ edges_before section.numbers.now t) }
    ensures { result ≡ step_right section.entry.numbers.now t }
{
    let l = section.numbers;
    let at = section.view;
    let n = at.n;
    let count = usize::from(number(l, 4 + n + t));
    let froms = usize::from(number(l, 3 + t));
    let tos = usize::from(number(l, 3 + (t + 1)));
    let pairs = at.pairs + 2 * before;
    let symbols = at.symbols + before;
    let step = Step {
        pairs: &l[pairs..],
        symbols: &l[symbols..],
        count,
    };
    edges_right(step, usize::from(at.q), froms, tos, t + 1 < n, 0 < t)
}

#[tactic(auto, using(section_file::proofs::Seen::near_of))]
fn steps_right(section: Section) -> bool
    requires { Laid section.numbers.now section.view }
    ensures { result ≡ all (step_right section.entry.numbers.now) section.entry.view.n }
{
    let l = section.numbers;
    let n = section.view.n;
    let mut before: usize = 0;
    for t in 0..n {
        if !step_right(section, t, before) {
            return false;
        }
        before += usize::from(number(l, 4 + n + t));
    }
    true
}

// The section at the front of the slice. Sizes and counts are checked first: where the other numbers stand follows from them.
fn front_part(l: &[u16]) -> Option<View>
    ensures { result ≡ part_of l.now }
{
    if !sizes_right(l) {
        return None;
    }
    let n = usize::from(number(l, 1));
    if !counts_right(l, n) {
        return None;
    }
    let at = view_of(l, n);
    if l.len() < at.end {
        return None;
    }
    let section = Section {
        numbers: l,
        view: at,
    };
    if !states_right(section) {
        return None;
    }
    if !steps_right(section) {
        return None;
    }
    Some(at)
}

// Whether the section that starts at a place of the slice is usable, and if so its view, whose places count from there. For every slice and
// every place the answer is the definition's: usable exactly if document 01's conditions hold of the numbers from that place on, with the
// sizes and places that the section's own counts give. A section that is cut short is unusable, and so is one that would start past the end
// of the slice. Nothing is written.
pub fn usable_at(s: &[u16], at: usize) -> Option<View>
    ensures { result ≡ part_of (drop at s.now) }
{
    front_part(s.get(at..)?)
}
