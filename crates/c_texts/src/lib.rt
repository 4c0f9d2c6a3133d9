// The printed sizes of a table and the block sheet, for C and Rust: the answer in plain numbers.

#![tactic(auto)]

ghost use Rattle.text_buffer.specs.Listing.{listing, ListingLeft};
ghost use Rattle.sheet_records.specs.Sheet.{sheet};

// Writes the printed sizes of the table in `file` into `text`.
pub fn listing_numbered(file: &[u8], text: &mut [u8], values: &mut [u32; 4]) -> u32
    ensures { ListingLeft (listing file.now text.old) result text.new values.new }
{
    let answer = listing::listing(file, text);
    answers::store(answer, values)
}

// Writes the block sheet of `input` into `text`.
pub fn block_sheet_numbered(input: &[u8], text: &mut [u8], values: &mut [u32; 4]) -> u32
    ensures { ListingLeft (sheet input.now text.old) result text.new values.new }
{
    let sheet = sheet::block_sheet(input, text);
    answers::store(sheet, values)
}
