// Reading a section back and comparing two sections, for C and Rust: the answer in plain numbers.

#![tactic(auto)]

ghost use Rattle.outcomes.specs.Numbered.{Numbered};
ghost use Rattle.read_back.specs.ReadingBack.{reading_back, ReadBackLeft};
ghost use Rattle.same_section.specs.Comparing.{comparing};

// Writes the table file of a section's words into `file`.
pub fn read_back_numbered(section: &[u16], file: &mut [u8], values: &mut [u32; 4]) -> u32
    ensures { ReadBackLeft (reading_back section.now file.old) result file.new values.new }
{
    let read = read_back::read_back(section, file);
    answers::store(read, values)
}

// Whether two lists of numbers are sections that differ only by the numbers of inner vertices: 1 or 0.
pub fn same_section_numbered(a: &[u16], b: &[u16], values: &mut [u32; 4]) -> u32
    ensures { Numbered (comparing a.now b.now) result values.new }
{
    let same = same_section::same_section(a, b);
    answers::store(same, values)
}
