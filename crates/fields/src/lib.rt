// The fields and the words of a table file, read in place from lent bytes. Every function answers for all arguments, by an equation with a
// definition of specs/.

#![tactic(auto)]

ghost use Rattle.std.specs.Prelude.{◌≡◌};
ghost use Rattle.fields.specs.Fields.{byte_at, two_bytes, word_count, length_bad};

// A word as the file has it. Words are compared by root, then label, then goal.
#[derive(Clone, Copy, PartialEq, Eq, PartialOrd, Ord)]
pub struct Word {
    pub root: u8,
    pub label: u16,
    pub goal: u8,
}

// A byte past the end reads as 0, so that reading a word needs no condition.
pub fn byte_at(file: &[u8], at: usize) -> u8
    ensures { result ≡ byte_at file.now at }
{
    file.get(at).copied().unwrap_or(0)
}

// The number in two bytes, low byte first.
pub fn two_bytes(low: u8, high: u8) -> u16
    ensures { result ≡ two_bytes low high }
{
    u16::from_le_bytes([low, high])
}

// W as the file states it.
pub fn word_count(file: &[u8]) -> u16
    ensures { result ≡ word_count file.now }
{
    two_bytes(byte_at(file, 3), byte_at(file, 4))
}

// Check 1: under 5 bytes, or not as many as the word count asks for.
pub fn length_bad(file: &[u8]) -> bool
    ensures { result ≡ length_bad file.now }
{
    file.len() < 5 || file.len() != 5 + 4 * usize::from(word_count(file))
}
