// Faults 13 and 10 of listing paths, and the paths where there is none.

#![tactic(auto)]

ghost use Rattle.std.specs.Prelude.{◌≡◌, ℕ};
ghost use Rattle.answers.specs.Answers.{decoded_list_outcome};
ghost use Rattle.frame.specs.Frame.{frame};
ghost use Rattle.path_list.specs.Listing.{left, counted};

use answers::decode_list::{DecodeListRefusal, DecodedList};
use frame::CheckedFrame;
use numbers::is_within;
use path_list::list_with;
use trellis::MOST_PATHS;

// Faults 13 and 10, and then what follows where there is none.
pub fn list_blocks(
    f: CheckedFrame,
    paths: usize,
    costs: &mut [u32],
    distances: &mut [u32],
    labels: &mut [u16],
    goals: &mut [u8],
) -> DecodedList
    ensures { (k : ℕ) → left (decoded_list_outcome result) costs.new distances.new labels.new goals.new
        ≡ counted (frame f.entry.sections.now k f.entry.indices.now f.entry.received.now f.entry.erased.now f.entry.start f.entry.end)
        paths costs.old distances.old labels.old goals.old }
{
    if !is_within(1, MOST_PATHS, paths) {
        return Err(DecodeListRefusal::Count(paths));
    }
    if let Some(needed) = room::needed_to_list(
        f.indices.len(),
        paths,
        costs.len(),
        distances.len(),
        labels.len(),
        goals.len(),
    ) {
        return Err(DecodeListRefusal::Short(needed));
    }
    list_with(f, paths, costs, distances, labels, goals)
}
