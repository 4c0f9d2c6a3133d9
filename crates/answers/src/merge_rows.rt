// Merging generator rows.
ghost use Rattle.answers.specs.Answers.{merged_rows_outcome};

use crate::Answer;
use outcomes::{Returned, one_value};

// A refusal, with the numbers that document 02 returns with it.
#[derive(Clone, Copy, PartialEq, Eq)]
pub enum MergeRowsRefusal {
    Rows(usize),
    Dependent(usize),
    ShortFile(usize),
    ShortMap(usize),
    ShortSection(usize),
}

// The section's length, or why there is none.
pub type MergedRows = Result<usize, MergeRowsRefusal>;

impl Answer for MergedRows {
    ghost outcome = { merged_rows_outcome };

    fn returned(self) -> Returned {
        match self {
            Ok(length) => one_value(0, length),
            Err(MergeRowsRefusal::Rows(count_or_row)) => one_value(14, count_or_row),
            Err(MergeRowsRefusal::Dependent(row)) => one_value(15, row),
            Err(MergeRowsRefusal::ShortFile(needed)) => one_value(10, needed),
            Err(MergeRowsRefusal::ShortMap(needed)) => one_value(5, needed),
            Err(MergeRowsRefusal::ShortSection(needed)) => one_value(7, needed),
        }
    }
}
