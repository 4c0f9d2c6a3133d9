// Runs the marked cases against the compiled code and prints what each call leaves: its answer's number and values, and the buffers, whose
// places were all 9. Then the answers on each side of the bounds on words, states, n, q, blocks and generator rows.

#![tactic(auto)]

mod decoding_cases;
mod merging_cases;
mod print;
mod row_cases;

use std::io;

fn main(rt: HostRuntime) -> io::Result<()> {
    merging_cases::run_cases(&rt)?;
    row_cases::run_case(&rt)?;
    decoding_cases::run_cases(&rt)?;
    merging_cases::run_bounds(&rt)?;
    decoding_cases::run_bounds(&rt)?;
    row_cases::run_bounds(&rt)
}
