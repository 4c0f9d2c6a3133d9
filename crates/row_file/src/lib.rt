// The table file of all sums of rows: q, n, S, W, then the words' states and labels, each a sum like the word itself.

#![tactic(auto)]

ghost use Rattle.std.specs.Prelude.{◌≡◌, ◌+◌, ◌*◌, ◌^◌, ◌≤◌, length};
ghost use mathlib.Core.List.{◌∷◌, map, flat_map};
ghost use Rattle.trellis.specs.Lists.{each, over};
ghost use Rattle.trellis.specs.Inner.Write.{Wrote};
ghost use Rattle.word_file.specs.TableBytes.{bytes_of, table_bytes};
ghost use Rattle.rows.specs.Sums.{sum_of};
ghost use Rattle.rows.specs.Table.{row_width, word_of};
ghost use Rattle.rows.specs.Inner.Reduced.{Narrow};
ghost use Rattle.row_file.specs.Inner.Filing.{FileAsked, state_bytes};

use parity::low_bits;
use row_labels::labels_of;
use row_sums::put_sums;
use trellis::MOST_WORDS;

// q, n, S and W.
fn put_sizes(n: usize, bits: usize, count: usize, file: &mut [u8])
    requires { (n ≤ 8) × (bits ≤ 4) × (count ≤ 1024) × (5 ≤ length file.old) }
    ensures { Wrote file.old 0 (2 ∷ n ∷ 2 ^ bits ∷ bytes_of count) file.new 5 }
{
    file[0] = 2;
    file[1] = n as u8;
    file[2] = 1 << bits;
    file[3] = (count % 256) as u8;
    file[4] = (count / 256) as u8;
}

// The words' states, from place 5 on.
fn put_states(words: &[u16], bits: usize, n: usize, file: &mut [u8]) -> usize
    requires { Narrow (row_width bits n) words.now × (bits ≤ 4) × (n ≤ 8) × (length words.now ≤ 1024)
        × (5 + 2 * length words.now ≤ length file.old) }
    ensures { Wrote file.old 5 (flat_map (state_bytes bits n) words.now) file.new result }
{
    let mut at: usize = 5;
    for &word in words {
        file[at] = (word >> (n + bits)) as u8;
        file[at + 1] = low_bits(word, bits) as u8;
        at += 2;
    }
    at
}

// The words' labels, low byte first.
fn put_labels(labels: &[u16], start: usize, file: &mut [u8])
    requires { (start ≤ 10000) × (length labels.now ≤ 1024) × (start + 2 * length labels.now ≤ length file.old) }
    ensures { Wrote file.old start (flat_map bytes_of labels.now) file.new
        (start + 2 * length labels.now) }
{
    let mut at = start;
    for &label in labels {
        file[at] = (label % 256) as u8;
        file[at + 1] = (label / 256) as u8;
        at += 2;
    }
}

// The table file of all sums of the rows.
pub fn put_file(rows: &[u16], bits: usize, n: usize, file: &mut [u8])
    requires { FileAsked rows.now bits n file.old }
    ensures { file.new
        ≡ over (table_bytes 2 n (2 ^ bits) (map (word_of bits n) (each (sum_of rows.now) (2 ^ length rows.now))))
        file.old }
{
    let mut words = [0u16; MOST_WORDS];
    let count = put_sums(rows, &mut words, 0);
    let parts = labels_of(rows, bits, n);
    let mut labels = [0u16; MOST_WORDS];
    put_sums(&parts[..rows.len()], &mut labels, 0);
    put_sizes(n, bits, count, file);
    let at = put_states(&words[..count], bits, n, file);
    put_labels(&labels[..count], at, file);
}
