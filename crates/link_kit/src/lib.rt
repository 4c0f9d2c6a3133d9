// The kit's front door. Rattle programs get the layers' functions with their answers and promises from here. Programs in C or Rust, which
// take no type of ours, get one call for each, which `link_kit_c` exports, since a crate is a library or a static library: it returns
// document 01's number, puts the numbers returned with it into `values`, and leaves every buffer as its layer does. No call asks anything
// of its arguments.

#![tactic(auto)]

ghost use Rattle.outcomes.specs.Numbered.{Numbered};
ghost use Rattle.merging.specs.Merging.{merging, MergeLeft};
ghost use Rattle.read_back.specs.ReadingBack.{reading_back, ReadBackLeft};
ghost use Rattle.merging_rows.specs.MergingRows.{merging_rows, MergeRowsLeft};
ghost use Rattle.same_section.specs.Comparing.{comparing};
ghost use Rattle.frame.specs.Frame.{frame};
ghost use Rattle.decoding.specs.Decoding.{decoding, DecodeLeft};
ghost use Rattle.path_list.specs.Listing.{listing as path_listing, DecodeListLeft};
ghost use Rattle.text_buffer.specs.Listing.{listing, ListingLeft};
ghost use Rattle.sheet_records.specs.Sheet.{sheet};

pub use answers::decode::{DecodeRefusal, Decoded};
pub use answers::decode_list::{DecodeListRefusal, DecodedList};
pub use answers::listing::{Listed, ListingRefusal};
pub use answers::merge::{MergeRefusal, Merged};
pub use answers::merge_rows::{MergeRowsRefusal, MergedRows};
pub use answers::read_back::{ReadBack, ReadBackRefusal};
pub use answers::same_section::{SameSection, SameSectionRefusal};
pub use chain::decode;
pub use chain_list::decode_list;
pub use comparing::{Comparison, compare as compare_labels};
pub use listing::listing;
pub use merge::merge;
pub use merge_rows::merge_rows;
pub use read_back::read_back;
pub use records::{BlockRecord, Sums, TooMany, count as count_records};
pub use same_section::same_section;
pub use sheet::block_sheet;

// Merges the table in `file`.
pub fn link_merge(file: &[u8], map: &mut [u16], section: &mut [u16], values: &mut [u32; 4]) -> u32
    ensures { MergeLeft (merging file.now map.old section.old) result
        map.new section.new values.new }
{
    c_merging::merge_numbered(file, map, section, values)
}

// Merges the table of all sums of generator rows.
pub fn link_merge_rows(
    bits: usize,
    n: usize,
    rows: &[u16],
    file: &mut [u8],
    map: &mut [u16],
    section: &mut [u16],
    values: &mut [u32; 4],
) -> u32
    ensures { MergeRowsLeft
        (merging_rows bits n rows.now file.old map.old section.old) result
        file.new map.new section.new values.new }
{
    c_rows::merge_rows_numbered(bits, n, rows, file, map, section, values)
}

// Writes the table file of a section's words into `file`.
pub fn link_read_back(section: &[u16], file: &mut [u8], values: &mut [u32; 4]) -> u32
    ensures { ReadBackLeft (reading_back section.now file.old) result file.new values.new }
{
    c_sections::read_back_numbered(section, file, values)
}

// Whether two lists of numbers are sections that differ only by the numbers of inner vertices: 1 or 0.
pub fn link_same_section(a: &[u16], b: &[u16], values: &mut [u32; 4]) -> u32
    ensures { Numbered (comparing a.now b.now) result values.new }
{
    c_sections::same_section_numbered(a, b, values)
}

// Decodes a chain of blocks over k sections.
pub fn link_decode(
    sections: &[u16],
    k: usize,
    indices: &[u8],
    received: &[u16],
    erased: &[u8],
    start: u8,
    end: u8,
    costs: &mut [u32],
    labels: &mut [u16],
    goals: &mut [u8],
    masks: &mut [u8],
    values: &mut [u32; 4],
) -> u32
    ensures { DecodeLeft (decoding
        (frame sections.now k indices.now received.now erased.now start end)
        costs.old labels.old goals.old masks.old) result
        costs.new labels.new goals.new masks.new values.new }
{
    c_decoding::decode_numbered(
        sections, k, indices, received, erased, start, end, costs, labels, goals, masks, values,
    )
}

// Lists the best paths of a chain of blocks over k sections, so many as `paths` says or all where fewer exist.
pub fn link_decode_list(
    sections: &[u16],
    k: usize,
    indices: &[u8],
    received: &[u16],
    erased: &[u8],
    start: u8,
    end: u8,
    paths: usize,
    costs: &mut [u32],
    distances: &mut [u32],
    labels: &mut [u16],
    goals: &mut [u8],
    values: &mut [u32; 4],
) -> u32
    ensures { DecodeListLeft (path_listing
        (frame sections.now k indices.now received.now erased.now start end) paths
        costs.old distances.old labels.old goals.old) result
        costs.new distances.new labels.new goals.new values.new }
{
    c_lists::decode_list_numbered(
        sections, k, indices, received, erased, start, end, paths, costs, distances, labels, goals,
        values,
    )
}

// Writes the printed sizes of the table in `file` into `text`.
pub fn link_listing(file: &[u8], text: &mut [u8], values: &mut [u32; 4]) -> u32
    ensures { ListingLeft (listing file.now text.old) result text.new values.new }
{
    c_texts::listing_numbered(file, text, values)
}

// Writes the block sheet of `input` into `text`.
pub fn link_block_sheet(input: &[u8], text: &mut [u8], values: &mut [u32; 4]) -> u32
    ensures { ListingLeft (sheet input.now text.old) result text.new values.new }
{
    c_texts::block_sheet_numbered(input, text, values)
}
