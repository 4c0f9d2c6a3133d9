// The kit's static library for C and Rust: one export for each of `link_kit`'s calls in plain numbers, which it makes under the same
// promise.

#![tactic(auto)]

ghost use Rattle.outcomes.specs.Numbered.{Numbered};
ghost use Rattle.merging.specs.Merging.{merging, MergeLeft};
ghost use Rattle.read_back.specs.ReadingBack.{reading_back, ReadBackLeft};
ghost use Rattle.merging_rows.specs.MergingRows.{merging_rows, MergeRowsLeft};
ghost use Rattle.same_section.specs.Comparing.{comparing};
ghost use Rattle.frame.specs.Frame.{frame};
ghost use Rattle.decoding.specs.Decoding.{decoding, DecodeLeft};
ghost use Rattle.path_list.specs.Listing.{listing as path_listing, DecodeListLeft};
ghost use Rattle.text_buffer.specs.Listing.{listing, ListingLeft};
ghost use Rattle.sheet_records.specs.Sheet.{sheet};

// Merges the table in `file`.
#[unsafe(no_mangle)]
pub extern "C" fn link_merge(
    file: &[u8],
    map: &mut [u16],
    section: &mut [u16],
    values: &mut [u32; 4],
) -> u32
    ensures { MergeLeft (merging file.now map.old section.old) result
        map.new section.new values.new }
{
    link_kit::link_merge(file, map, section, values)
}

// Merges the table of all sums of generator rows.
#[unsafe(no_mangle)]
pub extern "C" fn link_merge_rows(
    bits: usize,
    n: usize,
    rows: &[u16],
    file: &mut [u8],
    map: &mut [u16],
    section: &mut [u16],
    values: &mut [u32; 4],
) -> u32
    ensures { MergeRowsLeft
        (merging_rows bits n rows.now file.old map.old section.old) result
        file.new map.new section.new values.new }
{
    link_kit::link_merge_rows(bits, n, rows, file, map, section, values)
}

// Writes the table file of a section's words into `file`.
#[unsafe(no_mangle)]
pub extern "C" fn link_read_back(section: &[u16], file: &mut [u8], values: &mut [u32; 4]) -> u32
    ensures { ReadBackLeft (reading_back section.now file.old) result file.new values.new }
{
    link_kit::link_read_back(section, file, values)
}

// Whether two lists of numbers are sections that differ only by the numbers of inner vertices: 1 or 0.
#[unsafe(no_mangle)]
pub extern "C" fn link_same_section(a: &[u16], b: &[u16], values: &mut [u32; 4]) -> u32
    ensures { Numbered (comparing a.now b.now) result values.new }
{
    link_kit::link_same_section(a, b, values)
}

// Decodes a chain of blocks over k sections.
#[unsafe(no_mangle)]
pub extern "C" fn link_decode(
    sections: &[u16],
    k: usize,
    indices: &[u8],
    received: &[u16],
    erased: &[u8],
    start: u8,
    end: u8,
    costs: &mut [u32],
    labels: &mut [u16],
    goals: &mut [u8],
    masks: &mut [u8],
    values: &mut [u32; 4],
) -> u32
    ensures { DecodeLeft (decoding
        (frame sections.now k indices.now received.now erased.now start end)
        costs.old labels.old goals.old masks.old) result
        costs.new labels.new goals.new masks.new values.new }
{
    link_kit::link_decode(
        sections, k, indices, received, erased, start, end, costs, labels, goals, masks, values,
    )
}

// Lists the best paths of a chain of blocks over k sections, so many as `paths` says or all where fewer exist.
#[unsafe(no_mangle)]
pub extern "C" fn link_decode_list(
    sections: &[u16],
    k: usize,
    indices: &[u8],
    received: &[u16],
    erased: &[u8],
    start: u8,
    end: u8,
    paths: usize,
    costs: &mut [u32],
    distances: &mut [u32],
    labels: &mut [u16],
    goals: &mut [u8],
    values: &mut [u32; 4],
) -> u32
    ensures { DecodeListLeft (path_listing
        (frame sections.now k indices.now received.now erased.now start end) paths
        costs.old distances.old labels.old goals.old) result
        costs.new distances.new labels.new goals.new values.new }
{
    link_kit::link_decode_list(
        sections, k, indices, received, erased, start, end, paths, costs, distances, labels, goals,
        values,
    )
}

// Writes the printed sizes of the table in `file` into `text`.
#[unsafe(no_mangle)]
pub extern "C" fn link_listing(file: &[u8], text: &mut [u8], values: &mut [u32; 4]) -> u32
    ensures { ListingLeft (listing file.now text.old) result text.new values.new }
{
    link_kit::link_listing(file, text, values)
}

// Writes the block sheet of `input` into `text`.
#[unsafe(no_mangle)]
pub extern "C" fn link_block_sheet(input: &[u8], text: &mut [u8], values: &mut [u32; 4]) -> u32
    ensures { ListingLeft (sheet input.now text.old) result text.new values.new }
{
    link_kit::link_block_sheet(input, text, values)
}
