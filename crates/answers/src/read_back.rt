// Reading a section back.
ghost use Rattle.answers.specs.Answers.{read_back_outcome};

use crate::Answer;
use outcomes::{Returned, no_value, one_value};

// A refusal, with the numbers that document 01 returns with it.
#[derive(Clone, Copy, PartialEq, Eq)]
pub enum ReadBackRefusal {
    Unusable,
    TooMany,
    Short(usize),
}

// The file's length, or why there is none.
pub type ReadBack = Result<usize, ReadBackRefusal>;

impl Answer for ReadBack {
    ghost outcome = { read_back_outcome };

    fn returned(self) -> Returned {
        match self {
            Ok(length) => one_value(0, length),
            Err(ReadBackRefusal::Unusable) => one_value(8, 0),
            Err(ReadBackRefusal::TooMany) => no_value(12),
            Err(ReadBackRefusal::Short(needed)) => one_value(10, needed),
        }
    }
}
