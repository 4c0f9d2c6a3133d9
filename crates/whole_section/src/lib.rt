// The section that a whole slice is, for reading back and comparing; and, as laws, where the edges of its steps stand.

#![tactic(auto)]

ghost use Rattle.std.specs.Prelude.{◌≡◌};
ghost use Rattle.whole_section.specs.Inner.Whole.{whole_part};

use section_file::View;
use usable::usable_at;

// The section that a slice is: usable, with no numbers left over.
pub fn section_of(s: &[u16]) -> Option<View>
    ensures { result ≡ whole_part s.now }
{
    usable_at(s, 0).filter(|at| at.end == s.len())
}
