// Comparing two sections.
ghost use Rattle.answers.specs.Answers.{same_section_outcome};

use crate::Answer;
use outcomes::{Returned, one_value};

// A refusal, with the numbers that document 02 returns with it.
#[derive(Clone, Copy, PartialEq, Eq)]
pub enum SameSectionRefusal {
    Unusable(usize),
}

// Whether the two are the same but for numbering, or why that is not asked.
pub type SameSection = Result<bool, SameSectionRefusal>;

impl Answer for SameSection {
    ghost outcome = { same_section_outcome };

    fn returned(self) -> Returned {
        match self {
            Ok(same) => one_value(0, usize::from(same)),
            Err(SameSectionRefusal::Unusable(which)) => one_value(8, which),
        }
    }
}
