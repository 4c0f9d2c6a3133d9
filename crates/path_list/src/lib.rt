// What listing the best paths of a frame leaves, as definitions, and its last stage, for a frame and buffers that passed their checks: the
// cost table as in decoding, and where there is a path the k best, forward over the blocks, sorted and read out.

#![tactic(auto)]

ghost use Rattle.std.specs.Prelude.{◌≡◌, ℕ, ◌*◌, ◌≤◌, length};
ghost use Rattle.answers.specs.Answers.{decoded_list_outcome};
ghost use Rattle.frame.specs.Frame.{frame};
ghost use Rattle.room.specs.Inner.Fitting.{Few, RoomToList};
ghost use Rattle.forward.specs.Inner.Fronts.{Tabled};
ghost use Rattle.path_list.specs.Listing.{left, fitted};
ghost use Rattle.path_list.specs.Inner.Paths.{PathsListed};

use answers::decode_list::{DecodeListRefusal, DecodedList};
use beginnings::BACK;
use cost_table::{ends_in, fill};
use forward::keep_blocks;
use frame::CheckedFrame;
use passes::NO_PATH;
use readout::read_paths;
use settling::settle;
use sorted::sort;
use trellis::MOST_PATHS;

// The paths of a frame that has one and its cost table: forward over the blocks, then sorted, then read out.
fn list_paths(
    f: CheckedFrame,
    paths: usize,
    costs: &[u32],
    distances: &mut [u32],
    labels: &mut [u16],
    goals: &mut [u8],
) -> usize
    requires { Tabled (frame f.sections.now 0 f.indices.now f.received.now f.erased.now f.start f.end) costs.now × Few paths
        × (paths ≤ length distances.old) × (paths * length f.indices.now ≤ length labels.old)
        × (paths * length f.indices.now ≤ length goals.old) }
    ensures { PathsListed
        (frame f.entry.sections.now 0 f.entry.indices.now f.entry.received.now f.entry.erased.now f.entry.start f.entry.end)
        paths result distances.old distances.new labels.old labels.new goals.old goals.new }
{
    let mut slots = [0u64; MOST_PATHS];
    let mut back = [0u32; BACK];
    let count = keep_blocks(
        f.sections,
        &f.found.starts,
        &f.found.views,
        f.indices,
        f.received,
        f.erased,
        f.start,
        f.end,
        costs,
        paths,
        &mut slots,
        &mut back,
    );
    let sorted = sort(&slots, count);
    read_paths(
        &sorted,
        count,
        &back,
        f.indices.len(),
        distances,
        labels,
        goals,
    );
    count
}

// The cost table, and where there is a path from the start state the paths. K plays no part here, so the promise is for any.
pub fn list_with(
    f: CheckedFrame,
    paths: usize,
    costs: &mut [u32],
    distances: &mut [u32],
    labels: &mut [u16],
    goals: &mut [u8],
) -> DecodedList
    requires { Few paths × RoomToList f.indices.now paths costs.old distances.old labels.old goals.old }
    ensures { (k : ℕ) → left (decoded_list_outcome result) costs.new distances.new labels.new goals.new
        ≡ fitted (frame f.entry.sections.now k f.entry.indices.now f.entry.received.now f.entry.erased.now f.entry.start f.entry.end)
        paths costs.old distances.old labels.old goals.old }
{
    let ends = ends_in(usize::from(f.end));
    let to_pay = fill(
        f.sections,
        &f.found.starts,
        &f.found.views,
        f.indices,
        f.received,
        f.erased,
        ends,
        costs,
    );
    settle(f.sections, &f.found.starts, f.indices, ends, costs);
    if to_pay[usize::from(f.start)] == NO_PATH {
        return Err(DecodeListRefusal::NoPath);
    }
    Ok(list_paths(f, paths, costs, distances, labels, goals))
}
