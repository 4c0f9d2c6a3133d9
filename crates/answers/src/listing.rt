// A text in a lent buffer.
ghost use Rattle.answers.specs.Answers.{listed_outcome};

use crate::Answer;
use outcomes::{Returned, one_value};

// A refusal, with the numbers that document 01 returns with it.
#[derive(Clone, Copy, PartialEq, Eq)]
pub enum ListingRefusal {
    Short(usize),
}

// The length of the text, or why it is not there.
pub type Listed = Result<usize, ListingRefusal>;

impl Answer for Listed {
    ghost outcome = { listed_outcome };

    fn returned(self) -> Returned {
        match self {
            Ok(length) => one_value(0, length),
            Err(ListingRefusal::Short(needed)) => one_value(10, needed),
        }
    }
}
