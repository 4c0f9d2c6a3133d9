// The program `section`: reads a table file from standard input, to its end or to 65,536 bytes, and prints its sizes or why it is refused.
// What it prints is proved of `print_listing`, whatever reader and writer it is given: the text of the whole file, also where only the
// front of it is read. `main` gives it standard input and standard output.

#![tactic(auto)]

ghost use Rattle.std.specs.Prelude.{◌≡◌, ◌≤◌, OnOk, IfSome, length, take};
ghost use Rattle.std.specs.Io.KnownBytes.{Appends};
ghost use Rattle.lines.specs.Text.{text_of};

use answers::listing::ListingRefusal;
use filling::fill;
use listing::ANY_TEXT;
use std::io::{self, Read, Write};
use trellis::MOST_BYTES;

// One byte more than a table file may have: a file that long is refused for its length, however it goes on.
const MOST_READ: usize = MOST_BYTES + 1;

// Puts what is printed for `file` at the front of `text`, and returns how many bytes it has.
fn put_text(file: &[u8], text: &mut [u8; ANY_TEXT]) -> usize
    ensures inside { result ≤ length text.new }
    ensures text { take result text.new ≡ text_of file.now }
{
    match listing::listing(file, text) {
        Ok(length) => length,
        // Every text fits.
        Err(ListingRefusal::Short(_)) => unreachable!(),
    }
}

// Reads a table file, to its end or as far as it can matter, and writes its listing or the line of its refusal.
fn print_listing<R: Read + Drop, W: Write>(mut input: R, output: &mut W) -> io::Result<()>
    ensures { OnOk result (IfSome (R.remaining input)
        (λ file. Appends (W.contents output.old) (W.contents output.new) (text_of file))) }
{
    let mut file = [0u8; MOST_READ];
    let read = fill(&mut input, &mut file)?;
    let mut text = [0u8; ANY_TEXT];
    let length = put_text(&file[..read], &mut text);
    output.write_all(&text[..length])
}

fn main(rt: HostRuntime) -> io::Result<()> {
    print_listing(rt.stdin(), &mut rt.stdout())
}
