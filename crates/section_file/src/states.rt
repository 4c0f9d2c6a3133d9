// End states: whether those of the roots and of the goals ascend strictly and are below S.
ghost use Rattle.std.specs.Prelude.{◌≡◌, ◌≤◌, ◌<◌, length, get_or};
ghost use Rattle.trellis.specs.Lists.{all};
ghost use Rattle.section_file.specs.Usable.{states_right};
ghost use Rattle.section_file.specs.Inner.Steps.{higher, state_right};
ghost use Rattle.section_file.specs.Inner.View.{Laid};

use crate::Section;
use numbers::number;

// Whether vertex v has a state above that of the vertex before it.
#[tactic(auto, unfolding(crate::specs::Inner::Steps::higher))]
fn is_higher(states: &[u16], v: usize) -> bool
    requires { v < length states.now }
    ensures { result ≡ higher (λ u. get_or states.now u 0) v }
{
    v == 0 || states[v - 1] < states[v]
}

#[tactic(auto, unfolding(crate::specs::Inner::Steps::state_right))]
fn state_right(states: &[u16], v: usize, bound: u16) -> bool
    requires { v < length states.now }
    ensures { result ≡ state_right (λ u. get_or states.now u 0) bound v }
{
    is_higher(states, v) && states[v] < bound
}

fn is_rising(states: &[u16], count: usize, bound: u16) -> bool
    requires { count ≤ length states.now }
    ensures { result ≡ all (state_right (λ u. get_or states.now u 0) bound) count }
{
    (0..count).all(|v| state_right(states, v, bound))
}

// Whether the end states ascend strictly and are below S.
#[tactic(auto, using(crate::proofs::Seen::near_of))]
pub fn states_right(section: Section) -> bool
    requires { Laid section.numbers.now section.view }
    ensures { result ≡ states_right section.entry.numbers.now }
{
    let l = section.numbers;
    let at = section.view;
    let roots = at.roots;
    let goals = at.goals;
    let states = number(l, 2);
    is_rising(&l[roots..], usize::from(number(l, 3)), states)
        && is_rising(&l[goals..], usize::from(number(l, 3 + at.n)), states)
}
