// Sections one behind another in one list of numbers. `find` answers for all arguments whether there is a fault 8, and where there is none
// has the place where each section begins, and its view.

#![tactic(auto)]

ghost use Rattle.sections.specs.Inner.Found.{Looked};

use numbers::is_within;
use section_file::View;
use trellis::MOST_SECTIONS;
use usable::usable_at;

// The places where the K sections and what is behind them begin, and their views.
#[derive(Clone, Copy)]
pub struct Found {
    pub starts: [usize; MOST_SECTIONS + 1],
    pub views: [View; MOST_SECTIONS],
}

// The view of no section, where there are fewer than the array has room for.
const NO_VIEW: View = View {
    q: 0,
    n: 0,
    roots: 0,
    goals: 0,
    pairs: 0,
    symbols: 0,
    edges: 0,
    end: 0,
};

// Looks for K usable sections with nothing behind the last. The error is the number that document 01 returns for fault 8.
pub fn find(sections: &[u16], k: usize) -> Result<Found, usize>
    ensures { Looked sections.now k result }
{
    if !is_within(1, MOST_SECTIONS, k) {
        return Err(k);
    }
    let mut starts = [0usize; MOST_SECTIONS + 1];
    let mut views = [NO_VIEW; MOST_SECTIONS];
    let mut at: usize = 0;
    for i in 0..k {
        let Some(view) = usable_at(sections, at) else {
            return Err(i);
        };
        views[i] = view;
        at += view.end;
        starts[i + 1] = at;
    }
    if at != sections.len() {
        return Err(k);
    }
    Ok(Found { starts, views })
}
