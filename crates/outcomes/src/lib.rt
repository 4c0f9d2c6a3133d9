// An outcome of document 01 in numbers, as it is printed and as callers in other languages get it, stored in four places of four bytes.

#![tactic(auto)]

ghost use Rattle.std.specs.Prelude.{[], ◌∷◌, ◌≡◌};
ghost use Rattle.trellis.specs.Outcome.{outcome, Outcome};
ghost use Rattle.outcomes.specs.Inner.Holds.{Holds};
ghost use Rattle.outcomes.specs.Numbered.{stored, Numbered};

// The outcome's number, how many numbers are returned with it, and these; 0 in the places not used. Numbers and no enum: this is what
// callers in C are given, and what is printed.
#[derive(Clone, Copy)]
pub struct Returned {
    pub number: u32,
    pub count: usize,
    pub values: [usize; 4],
}

// An outcome with which nothing more is returned.
pub fn no_value(number: u32) -> Returned
    ensures { Holds (outcome number []) result.number result.count result.values }
{
    Returned {
        number,
        count: 0,
        values: [0, 0, 0, 0],
    }
}

// An outcome with which one number is returned.
pub fn one_value(number: u32, value: usize) -> Returned
    ensures { Holds (outcome number (value ∷ [])) result.number result.count result.values }
{
    Returned {
        number,
        count: 1,
        values: [value, 0, 0, 0],
    }
}

// An outcome with which four numbers are returned.
pub fn four_values(number: u32, a: usize, b: usize, c: usize, d: usize) -> Returned
    ensures { Holds (outcome number (a ∷ b ∷ c ∷ d ∷ [])) result.number result.count result.values }
{
    Returned {
        number,
        count: 4,
        values: [a, b, c, d],
    }
}

// Lengths are as wide as the machine's addresses, and a place of the answer is not.
fn narrowed(x: usize) -> u32
    ensures { result ≡ stored x }
{
    if x < 4294967295 { x as u32 } else { 4294967295 }
}

// Puts the values of an outcome into their places and returns its number.
pub fn store(outcome: Returned, values: &mut [u32; 4]) -> u32
    ensures { (o : Outcome) → Holds o outcome.number outcome.count outcome.values → Numbered o result values.new }
{
    let four = outcome.values;
    *values = [
        narrowed(four[0]),
        narrowed(four[1]),
        narrowed(four[2]),
        narrowed(four[3]),
    ];
    outcome.number
}
