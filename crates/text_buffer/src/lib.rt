// A text that was made elsewhere, copied to a lent buffer where there is room for it.

#![tactic(auto)]

ghost use Rattle.std.specs.Prelude.{◌≡◌};
ghost use Rattle.answers.specs.Answers.{listed_outcome};
ghost use Rattle.text_buffer.specs.Listing.{left, in_buffer};

use answers::listing::{Listed, ListingRefusal};
use text::put_bytes;

// Copies a text to the front of `text`, where there is room for it.
pub fn put_whole(made: &[u8], text: &mut [u8]) -> Listed
    ensures { left (listed_outcome result) text.new ≡ in_buffer made.now text.old }
{
    let length = made.len();
    if text.len() < length {
        return Err(ListingRefusal::Short(length));
    }
    put_bytes(text, 0, made);
    Ok(length)
}
