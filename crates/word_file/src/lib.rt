// Words, as numbers of three fields, written as a table file.

#![tactic(auto)]

ghost use Rattle.std.specs.Prelude.{◌≡◌, ◌+◌, ◌*◌, ◌/◌, ◌%◌, ◌≤◌, length, get_or, take, drop};
ghost use mathlib.Core.List.{[], ◌∷◌, ◌++◌, flat_map};
ghost use Rattle.trellis.specs.Bounds.{most_words};
ghost use Rattle.trellis.specs.Inner.Write.{Wrote};
ghost use Rattle.word_file.specs.Inner.Written.{byte_of, pair_of_code, label_of_code, file_of_codes};

use codes::{label_of, root_of, vertex_of};
use numbers::number;
use trellis::MOST_WORDS;

fn byte(x: usize) -> u8
    ensures { result ≡ byte_of x }
{
    (x % 256) as u8
}

// The number at place i as a byte.
fn byte_at(l: &[u16], i: usize) -> u8
    ensures { result ≡ byte_of (get_or l.now i 0) }
{
    byte(usize::from(number(l, i)))
}

fn put_sizes(s: &[u16], count: usize, file: &mut [u8])
    requires { 5 ≤ length file.old }
    ensures { Wrote file.old 0 (byte_of (get_or s.now 0 0) ∷ byte_of (get_or s.now 1 0) ∷ byte_of (get_or
        s.now 2 0) ∷ byte_of count ∷ byte_of (count / 256) ∷ []) file.new 5 }
{
    file[0] = byte_at(s, 0);
    file[1] = byte_at(s, 1);
    file[2] = byte_at(s, 2);
    file[3] = byte(count);
    file[4] = byte(count / 256);
}

fn put_pairs(goals: &[u16], codes: &[u32; MOST_WORDS], count: usize, file: &mut [u8]) -> usize
    requires { (count ≤ most_words) × (5 + 2 * count ≤ length file.old) × (length codes.now ≡ most_words) }
    ensures { Wrote file.old 5 (flat_map (pair_of_code goals.now) (take count codes.now))
        file.new result }
{
    let mut at: usize = 5;
    for i in 0..count {
        let c = codes[i];
        file[at] = byte(root_of(c));
        file[at + 1] = byte_at(goals, vertex_of(c));
        at += 2;
    }
    at
}

fn put_labels(codes: &[u32; MOST_WORDS], count: usize, start: usize, file: &mut [u8]) -> usize
    requires { (start ≤ 10000) × (count ≤ most_words) × (start + 2 * count ≤ length file.old) × (length codes.now ≡ most_words) }
    ensures { Wrote file.old start (flat_map label_of_code (take count codes.now)) file.new result }
{
    let mut at = start;
    for i in 0..count {
        let label = usize::from(label_of(codes[i]));
        file[at] = byte(label);
        file[at + 1] = byte(label / 256);
        at += 2;
    }
    at
}

pub fn put_file(s: &[u16], goals: &[u16], codes: &[u32; MOST_WORDS], count: usize, file: &mut [u8])
    requires { (count ≤ most_words) × (5 + 4 * count ≤ length file.old) × (length codes.now ≡ most_words) }
    ensures { file.new ≡ file_of_codes s.now goals.now codes.now count
        ++ drop (5 + 4 * count) file.old }
{
    put_sizes(s, count, file);
    let at = put_pairs(goals, codes, count, file);
    put_labels(codes, count, at, file);
}
