// Decoding a chain.
ghost use Rattle.answers.specs.Answers.{decoded_outcome};

use crate::Answer;
use outcomes::{Returned, no_value, one_value};

// A refusal, with the numbers that document 01 returns with it.
#[derive(Clone, Copy, PartialEq, Eq)]
pub enum DecodeRefusal {
    Section(usize),
    Block(usize),
    Short(usize),
    NoPath,
}

// The distance, or why there is none.
pub type Decoded = Result<u32, DecodeRefusal>;

impl Answer for Decoded {
    ghost outcome = { decoded_outcome };

    fn returned(self) -> Returned {
        match self {
            Ok(distance) => one_value(0, distance as usize),
            Err(DecodeRefusal::Section(index)) => one_value(8, index),
            Err(DecodeRefusal::Block(block)) => one_value(9, block),
            Err(DecodeRefusal::Short(needed)) => one_value(10, needed),
            Err(DecodeRefusal::NoPath) => no_value(11),
        }
    }
}
