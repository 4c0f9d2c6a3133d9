// Reading a section back into the table file of its words, for any numbers and any buffer, by document 01's checks 8, 12 and 10.

#![tactic(auto)]

ghost use Rattle.std.specs.Prelude.{◌≡◌, true, ◌+◌, ◌*◌, ◌<◌};
ghost use Rattle.answers.specs.Answers.{read_back_outcome};
ghost use Rattle.section_file.specs.Inner.View.{Seen};
ghost use Rattle.section_file.specs.Usable.{is_section};
ghost use Rattle.read_back.specs.ReadingBack.{left, reading_back};

pub use answers::read_back::{ReadBack, ReadBackRefusal};
pub use codes::{further, label_of, root_of, vertex_of};
use gathering::gather;
use section_file::Section;
use trellis::MOST_WORDS;
pub use whole_section::section_of;
use word_file::put_file;

// Writes the table file of a section's words.
#[tactic(auto, using(gathering::proofs::Depths::near))]
fn put_words(section: Section, file: &mut [u8]) -> ReadBack
    requires { Seen section.numbers.now section.view × (is_section section.numbers.now ≡ true) }
    ensures { left (read_back_outcome result) file.new ≡ reading_back section.entry.numbers.now file.old }
{
    let numbers = section.numbers;
    let goals = section.view.goals;
    let mut codes = [0u32; MOST_WORDS];
    let Some(count) = gather(section, &mut codes) else {
        return Err(ReadBackRefusal::TooMany);
    };
    let needed = 5 + 4 * count;
    if file.len() < needed {
        return Err(ReadBackRefusal::Short(needed));
    }
    put_file(numbers, &numbers[goals..], &codes, count, file);
    Ok(needed)
}

// Writes the table file of the words of `section` to the front of `file`.
pub fn read_back(section: &[u16], file: &mut [u8]) -> ReadBack
    ensures { left (read_back_outcome result) file.new ≡ reading_back section.now file.old }
{
    match section_of(section) {
        Some(view) => {
            let numbers = section;
            put_words(Section { numbers, view }, file)
        },
        None => Err(ReadBackRefusal::Unusable),
    }
}
