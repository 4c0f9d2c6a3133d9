// The tables of a block sheet's input, each measured once. `read` checks the input in document 02's order; it answers by what each section
// costs, or by the first fault.

#![tactic(auto)]

ghost use Rattle.std.specs.Prelude.{◌≡◌, ◌≤◌, MatchResult, length};
ghost use Rattle.table.specs.File.{table_file};
ghost use Rattle.input_parts.specs.Input.{any_table, most_input, table_outcome, input_outcome};
ghost use Rattle.input_parts.specs.Inner.Read.{HeadPassed, Fault, TableMeasured, Read};

use answers::Answer as _;
use answers::merge::MergeRefusal;
pub use input_parts::{block_count, section_index};
use input_parts::{check_head, left_over, part_length, section_count};
use listing::ANY_MAP;
use merging::ANY_SIZES;
use outcomes::Returned;
use section_costs::{additions_of, selections_of};
use trellis::{MOST_BLOCKS, MOST_SECTIONS, MOST_WORDS};

// No table has more bytes: two bytes state no larger W.
const ANY_TABLE: usize = 5 + 4 * 65535;

// The longest input whose answer can depend on its last byte.
pub const MOST_INPUT: usize = 3
    + MOST_BLOCKS
    + (MOST_SECTIONS - 1) * (5 + 4 * MOST_WORDS)
    + ANY_TABLE;

// A buffer for a program that reads its input: what does not fit changes no answer.
pub fn input_buffer() -> [u8; MOST_INPUT]
    ensures { length result ≡ most_input }
{
    [0; MOST_INPUT]
}

// What a section costs.
#[derive(Clone, Copy)]
struct Cost {
    additions: u32,
    selections: u32,
}

// Measuring answers a table that has a section by refusal 7: no buffer was lent for it. The map is long enough for every table.
fn measure(file: &[u8]) -> Result<Cost, Returned>
    requires { length file.now ≤ any_table }
    ensures { MatchResult result (λ cost. TableMeasured (table_file file.now) cost.additions cost.selections)
        (Fault (table_outcome (table_file file.now))) }
{
    let mut map = [0u16; ANY_MAP];
    let mut sizes = [0u16; ANY_SIZES];
    let answer = merge::measure(file, &mut map, &mut sizes);
    match answer {
        // No section fits where there is no buffer.
        Ok(_) => unreachable!(),
        Err(refusal) => match refusal {
            MergeRefusal::ShortSection(_) => Ok(Cost {
                additions: additions_of(&sizes) as u32,
                selections: selections_of(&sizes) as u32,
            }),
            _ => Err(answer.returned()),
        },
    }
}

// What each section costs; the places behind the last are not used.
#[derive(Clone, Copy)]
pub struct Costs {
    pub additions: [u32; MOST_SECTIONS],
    pub selections: [u32; MOST_SECTIONS],
}

// Behind a head with no fault: the tables one by one, each measured once, up to the first that is refused, then bytes left over.
fn measure_tables(input: &[u8], start: usize, sections: usize) -> Result<Costs, Returned>
    requires { HeadPassed input.now start sections }
    ensures { MatchResult result (λ costs. Read input.now costs.additions costs.selections) (Fault (input_outcome input.now)) }
{
    let mut costs = Costs {
        additions: [0u32; MOST_SECTIONS],
        selections: [0u32; MOST_SECTIONS],
    };
    let mut at = start;
    for j in 0..sections {
        let rest = &input[at..];
        let length = part_length(rest);
        let cost = measure(&rest[..length])?;
        costs.additions[j] = cost.additions;
        costs.selections[j] = cost.selections;
        at += length;
    }
    left_over(at, input.len(), sections)?;
    Ok(costs)
}

// Reads the input of a block sheet: what each section costs, or the first fault.
pub fn read(input: &[u8]) -> Result<Costs, Returned>
    ensures { MatchResult result (λ costs. Read input.now costs.additions costs.selections) (Fault (input_outcome input.now)) }
{
    let sections = section_count(input);
    let blocks = block_count(input);
    check_head(input, sections, blocks)?;
    measure_tables(input, 3 + blocks, sections)
}
