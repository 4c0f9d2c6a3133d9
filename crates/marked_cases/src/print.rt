// Numbers printed one behind another, each after a space: an outcome, and whole buffers, each on its line.
use answers::Answer;
use std::fmt::Display;
use std::io;

// A line of a name and numbers.
pub fn put_numbers<T: Copy + Display>(
    rt: &impl Print,
    name: &[u8],
    numbers: &[T],
) -> io::Result<()> {
    rt.write_all(name)?;
    for x in numbers {
        print!(rt; " {x}")?;
    }
    rt.write_all(b"\n")
}

// The number of an answer's outcome, and the numbers returned with it.
pub fn put_outcome<A: Answer>(rt: &impl Print, name: &[u8], answer: A) -> io::Result<()> {
    let outcome = answer.returned();
    rt.write_all(name)?;
    let number = outcome.number;
    print!(rt; " {number}")?;
    let values = outcome.values;
    put_numbers(rt, b"", &values[..outcome.count])
}
