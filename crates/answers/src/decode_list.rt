// Listing the best paths of a chain.
ghost use Rattle.answers.specs.Answers.{decoded_list_outcome};

use crate::Answer;
use outcomes::{Returned, no_value, one_value};

// A refusal, with the numbers that document 02 returns with it.
#[derive(Clone, Copy, PartialEq, Eq)]
pub enum DecodeListRefusal {
    Section(usize),
    Block(usize),
    Short(usize),
    NoPath,
    Count(usize),
}

// How many paths are listed, or why there are none.
pub type DecodedList = Result<usize, DecodeListRefusal>;

impl Answer for DecodedList {
    ghost outcome = { decoded_list_outcome };

    fn returned(self) -> Returned {
        match self {
            Ok(count) => one_value(0, count),
            Err(DecodeListRefusal::Section(index)) => one_value(8, index),
            Err(DecodeListRefusal::Block(block)) => one_value(9, block),
            Err(DecodeListRefusal::Short(needed)) => one_value(10, needed),
            Err(DecodeListRefusal::NoPath) => no_value(11),
            Err(DecodeListRefusal::Count(paths)) => one_value(13, paths),
        }
    }
}
