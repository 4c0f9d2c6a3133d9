// What merging generator rows leaves, as definitions, and its last stage, for reduced rows and buffers with room: the map, the section and
// the file, or 7.

#![tactic(auto)]

ghost use Rattle.std.specs.Prelude.{◌*◌};
ghost use Rattle.merging_rows.specs.MergingRows.{merged_rows};
ghost use Rattle.merging_rows.specs.Inner.Stages.{BuildAsked, RowsEnd};

use answers::merge_rows::{MergeRowsRefusal, MergedRows};
use parity::ROW_BITS;
use row_section::put_section;
use trellis::{MOST_SYMBOLS, MOST_WORDS};

// The map, the section and the file of the table of all sums of reduced rows, whose parity check is lent; w is the number of words. 7 where
// the section has no room.
pub fn build(
    columns: &[u16; ROW_BITS],
    rows: &[u16],
    w: usize,
    bits: usize,
    n: usize,
    file: &mut [u8],
    map: &mut [u16],
    section: &mut [u16],
) -> MergedRows
    requires { BuildAsked bits n rows.now columns.now w file.old map.old }
    ensures { RowsEnd (merged_rows bits n rows.now file.old map.old section.old) result
        file.new map.new section.new }
{
    let depths = row_map::put_map(columns, rows, w, bits, n, map);
    let dims = depths.dims;
    let vertices = depths.counts;
    let mut numbers = [0u16; MOST_SYMBOLS * MOST_WORDS];
    let edges = row_arcs::take_edges(map, w, rows, bits, n, &dims, &mut numbers);
    let needed = assemble::section_length(n, &vertices, edges.total);
    if section.len() < needed {
        return Err(MergeRowsRefusal::ShortSection(needed));
    }
    put_section(bits, n, depths, edges, &numbers, section);
    row_file::put_file(rows, bits, n, file);
    Ok(needed)
}
