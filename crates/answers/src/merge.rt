// Merging a table.
ghost use Rattle.answers.specs.Answers.{merged_outcome};

use crate::Answer;
use outcomes::{Returned, four_values, one_value};

// A refusal, with the numbers that document 01 returns with it.
#[derive(Clone, Copy, PartialEq, Eq)]
pub enum MergeRefusal {
    Length(usize),
    Size(usize),
    Word(usize),
    Order(usize),
    ShortMap(usize),
    NotRectangular(usize, usize, usize, usize),
    ShortSection(usize),
}

// The section's length, or why there is none.
pub type Merged = Result<usize, MergeRefusal>;

impl Answer for Merged {
    ghost outcome = { merged_outcome };

    fn returned(self) -> Returned {
        match self {
            Ok(length) => one_value(0, length),
            Err(MergeRefusal::Length(length)) => one_value(1, length),
            Err(MergeRefusal::Size(place)) => one_value(2, place),
            Err(MergeRefusal::Word(index)) => one_value(3, index),
            Err(MergeRefusal::Order(index)) => one_value(4, index),
            Err(MergeRefusal::ShortMap(needed)) => one_value(5, needed),
            Err(MergeRefusal::NotRectangular(depth, i, j, k)) => four_values(6, depth, i, j, k),
            Err(MergeRefusal::ShortSection(needed)) => one_value(7, needed),
        }
    }
}
