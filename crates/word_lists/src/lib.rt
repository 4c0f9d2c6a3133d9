// Words in three lists: those of a table file are copied into arrays, since merging goes over them many times and a word's bytes lie apart
// in the file.

#![tactic(auto)]

ghost use Rattle.std.specs.Prelude.{◌≤◌};
ghost use Rattle.trellis.specs.Bounds.{most_words};
ghost use Rattle.word_lists.specs.Inner.Lists.{Copied};

use trellis::MOST_WORDS;

// The words of a file, in front of three arrays.
#[derive(Clone, Copy)]
pub struct Lists {
    pub roots: [u8; MOST_WORDS],
    pub labels: [u16; MOST_WORDS],
    pub goals: [u8; MOST_WORDS],
}

pub fn copy_words(file: &[u8], count: u16) -> Lists
    requires { count ≤ most_words }
    ensures { Copied file.now count result.roots result.labels result.goals }
{
    let mut roots = [0u8; MOST_WORDS];
    let mut labels = [0u16; MOST_WORDS];
    let mut goals = [0u8; MOST_WORDS];
    for i in 0..count {
        let at = usize::from(i);
        let word = reader::word_through(file, i);
        roots[at] = word.root;
        labels[at] = word.label;
        goals[at] = word.goal;
    }
    Lists {
        roots,
        labels,
        goals,
    }
}
