// The program `blocks`: reads the input of a block sheet from standard input, to its end or as far as it can matter, and prints the sheet,
// or why the input is refused. What it prints is proved of `print_sheet`, whatever reader and writer it is given: the text of the whole
// input, also where only the front of it is read. `main` gives it standard input and standard output.

#![tactic(auto)]

ghost use Rattle.std.specs.Prelude.{◌≡◌, ◌<◌, ◌≤◌, OnOk, IfSome, All, length, take};
ghost use Rattle.std.specs.Io.KnownBytes.{Appends};
ghost use Rattle.sheet_records.specs.Sheet.{sheet_text};

use answers::listing::ListingRefusal;
use filling::fill;
use sheet::ANY_SHEET;
use sheet_input::input_buffer;
use std::io::{self, Read, Write};

// Puts the sheet of `input`, or the line of its refusal, at the front of `text`, and returns how many bytes it has.
fn put_text(input: &[u8], text: &mut [u8; ANY_SHEET]) -> usize
    ensures inside { result ≤ length text.new }
    ensures text { take result text.new ≡ sheet_text input.now }
{
    match sheet::block_sheet(input, text) {
        Ok(length) => length,
        // Every sheet fits.
        Err(ListingRefusal::Short(_)) => unreachable!(),
    }
}

// Reads the input of a block sheet, to its end or as far as it can matter, and writes the sheet or the line of its refusal.
fn print_sheet<R: Read + Drop, W: Write>(mut input: R, output: &mut W) -> io::Result<()>
    ensures { OnOk result (IfSome (R.remaining input) (λ bytes. All (λ b. b < 256) bytes
        → Appends (W.contents output.old) (W.contents output.new) (sheet_text bytes))) }
{
    let mut front = input_buffer();
    let read = fill(&mut input, &mut front)?;
    let mut text = [0u8; ANY_SHEET];
    let length = put_text(&front[..read], &mut text);
    output.write_all(&text[..length])
}

fn main(rt: HostRuntime) -> io::Result<()> {
    print_sheet(rt.stdin(), &mut rt.stdout())
}
