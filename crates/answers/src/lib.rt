// What the functions of the kit answer: a result whose error is an enum of refusals. An answer stands for an outcome, document 01's number
// and values, or for what came later document 02's; what it returns is that outcome in numbers.

#![tactic(auto)]

ghost use Rattle.trellis.specs.Outcome.{Outcome};
ghost use Rattle.outcomes.specs.Inner.Holds.{Holds};
ghost use Rattle.outcomes.specs.Numbered.{Numbered};

pub mod decode;
pub mod decode_list;
pub mod listing;
pub mod merge;
pub mod merge_rows;
pub mod read_back;
pub mod same_section;

use outcomes::Returned;

// An answer, its outcome, and that outcome in numbers.
pub trait Answer {
    ghost outcome: { Self → Outcome };

    fn returned(self) -> Returned
        ensures { Holds (outcome self) result.number result.count result.values };
}

// Puts the values of an answer into their places and returns its number.
pub fn store<A: Answer>(answer: A, values: &mut [u32; 4]) -> u32
    ensures { Numbered (A.outcome answer) result values.new }
{
    outcomes::store(answer.returned(), values)
}
