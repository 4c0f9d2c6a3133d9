// Whether two sections differ only by the numbers of inner vertices, for any two lists of numbers: document 02's request 8. The matching
// of vertices is followed from depth 0 on, in a few looks at each number, however many words the sections have. Nothing is written.

#![tactic(auto)]

ghost use Rattle.std.specs.Prelude.{◌≡◌, true, get_or, eqb};
ghost use Rattle.trellis.specs.Lists.{all};
ghost use Rattle.answers.specs.Answers.{same_section_outcome};
ghost use Rattle.section_file.specs.Inner.View.{Seen};
ghost use Rattle.section_file.specs.Usable.{is_section};
ghost use Rattle.same_section.specs.Comparing.{same_code, comparing};

pub use answers::same_section::{SameSection, SameSectionRefusal};
use following::follow;
use numbers::number;
use section_file::Section;
use whole_section::section_of;

// Whether the first `count` numbers of two slices are the same.
fn alike(a: &[u16], b: &[u16], count: usize) -> bool
    ensures { result ≡ all (λ i. eqb (get_or a.now i 0) (get_or b.now i 0)) count }
{
    (0..count).all(|i| number(a, i) == number(b, i))
}

// Whether two sections have the same words. Sizes, counts and end states stand in front of the edges. With one step no vertex is an inner
// one, so all numbers are the same; else the matching is followed. There being as many vertices and edges in both, what carries the edges
// of the one to edges of the other meets them all.
fn same_code(a: Section, b: &[u16]) -> bool
    requires { Seen a.numbers.now a.view × (is_section a.numbers.now ≡ true) × (is_section b.now ≡ true) }
    ensures { result ≡ same_code a.entry.numbers.now b.now }
{
    let at = a.view;
    if !alike(a.numbers, b, at.pairs) {
        return false;
    }
    if at.n == 1 {
        return alike(a.numbers, b, at.end);
    }
    follow(a, b)
}

// The first of the two is a section.
fn compare(a: Section, b: &[u16]) -> SameSection
    requires { Seen a.numbers.now a.view × (is_section a.numbers.now ≡ true) }
    ensures { same_section_outcome result ≡ comparing a.entry.numbers.now b.now }
{
    match section_of(b) {
        Some(_there) => { if same_code(a, b) { Ok(true) } else { Ok(false) } },
        None => Err(SameSectionRefusal::Unusable(1)),
    }
}

// Whether two lists of numbers are sections with the same q, n, S and words.
pub fn same_section(a: &[u16], b: &[u16]) -> SameSection
    ensures { same_section_outcome result ≡ comparing a.now b.now }
{
    match section_of(a) {
        Some(view) => compare(Section { numbers: a, view }, b),
        None => Err(SameSectionRefusal::Unusable(0)),
    }
}
