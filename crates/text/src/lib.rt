// Lines of text for people: a fixed word, then numbers in decimal, a space before each, then a newline byte. A line is put behind what a
// buffer of bytes already holds; what does not fit is left out, so that no function asks for room.

#![tactic(auto)]

ghost use Rattle.std.specs.Prelude.{◌≡◌, [], ◌∷◌, ◌+◌, ◌%◌};
ghost use Rattle.text.specs.Line.{digit, spaced, line};
ghost use Rattle.text.specs.Inner.Put.{Put, Spelt};

fn put_byte(text: &mut [u8], at: usize, byte: u8) -> usize
    ensures { Put text.old at (byte ∷ []) text.new result }
{
    if at < text.len() {
        text[at] = byte;
        return at + 1;
    }
    at
}

// Puts bytes behind the first `at` bytes of a text, and says where the text now ends.
pub fn put_bytes(text: &mut [u8], at: usize, bytes: &[u8]) -> usize
    ensures { Put text.old at bytes.now text.new result }
{
    let mut end = at;
    for byte in bytes {
        end = put_byte(text, end, *byte);
    }
    end
}

fn last_digit(x: usize) -> u8
    ensures { result ≡ digit (x % 10) }
{
    b'0' + (x % 10) as u8
}

// Spells a number at the end of twenty bytes and says where it begins: the last digit is found first.
fn spell(x: usize, out: &mut [u8; 20]) -> usize
    ensures { Spelt x out.new result }
{
    *out = [0u8; 20];
    let mut rest = x;
    let mut at: usize = 19;
    // A `while`, since how many digits there are shows only as they are found.
    while rest >= 10 {
        out[at] = last_digit(rest);
        rest /= 10;
        at -= 1;
    }
    out[at] = last_digit(rest);
    at
}

fn put_number(text: &mut [u8], at: usize, x: usize) -> usize
    ensures { Put text.old at (spaced x) text.new result }
{
    let mut out = [0u8; 20];
    let first = spell(x, &mut out);
    let end = put_byte(text, at, b' ');
    put_bytes(text, end, &out[first..])
}

// Puts the line of a word and its numbers likewise.
pub fn put_line(text: &mut [u8], at: usize, word: &[u8], numbers: &[usize]) -> usize
    ensures { Put text.old at (line word.now numbers.now) text.new result }
{
    let mut end = put_bytes(text, at, word);
    for number in numbers {
        end = put_number(text, end, *number);
    }
    put_byte(text, end, b'\n')
}
