// Sections from generator rows: the table of all sums of the rows, its map, and its section, built from a parity check. The promise, for
// all arguments, is an equation with one definition, `merging_rows`, over the same `written` as merging the table's file: the answer with
// document 02's number and values, and every place of the three buffers.

#![tactic(auto)]

ghost use Rattle.std.specs.Prelude.{◌≡◌, ◌*◌, ◌+◌};
ghost use Rattle.answers.specs.Answers.{merged_rows_outcome};
ghost use Rattle.merging_rows.specs.MergingRows.{left, merged_rows, merging_rows};
ghost use Rattle.merging_rows.specs.Inner.Stages.{BaseAsked, RowsEnd};

pub use answers::merge_rows::{MergeRowsRefusal, MergedRows};
use merging_rows::build;
use parity::ROW_BITS;
use row_checks::{first_wide, sizes_fit, words_of};

// Rows that passed their checks, reduced, with their parity check: refusal 10 for the file, 5 for the map, or what building says.
fn build_with_room(
    columns: &[u16; ROW_BITS],
    rows: &[u16],
    bits: usize,
    n: usize,
    file: &mut [u8],
    map: &mut [u16],
    section: &mut [u16],
) -> MergedRows
    requires { BaseAsked bits n rows.now columns.now }
    ensures { RowsEnd (merged_rows bits n rows.now file.old map.old section.old) result
        file.new map.new section.new }
{
    let w = words_of(rows.len());
    let size = 5 + 4 * w;
    if file.len() < size {
        return Err(MergeRowsRefusal::ShortFile(size));
    }
    let needed = w * (n + 1);
    if map.len() < needed {
        return Err(MergeRowsRefusal::ShortMap(needed));
    }
    build(columns, rows, w, bits, n, file, map, section)
}

// Merges the table of all sums of generator rows, which have `bits` state bits, n symbols and `bits` state bits, the first highest: the
// table into `file`, the vertex of each word at each depth into `map`, the section into `section`.
#[tactic(auto, using(crate::proofs::Entry::few_bits, crate::proofs::Entry::few_symbols))]
pub fn merge_rows(
    bits: usize,
    n: usize,
    rows: &[u16],
    file: &mut [u8],
    map: &mut [u16],
    section: &mut [u16],
) -> MergedRows
    ensures { left (merged_rows_outcome result) file.new map.new section.new
        ≡ merging_rows bits n rows.now file.old map.old section.old }
{
    let count = rows.len();
    if !sizes_fit(bits, n, count) {
        return Err(MergeRowsRefusal::Rows(count));
    }
    if let Some(row) = first_wide(rows, bits + n + bits) {
        return Err(MergeRowsRefusal::Rows(row));
    }
    let columns = match parity::check(rows) {
        Ok(columns) => columns,
        Err(row) => return Err(MergeRowsRefusal::Dependent(row)),
    };
    let reduced = reduced_rows::reduced(&columns);
    build_with_room(&columns, reduced.as_slice(), bits, n, file, map, section)
}
