// What decoding a frame leaves, as definitions, and its last stage, for a frame and buffers that passed their checks: backward over the
// blocks to the distance, forward to the words and their masks, and the cost table.

#![tactic(auto)]

ghost use Rattle.std.specs.Prelude.{◌≡◌, ℕ};
ghost use Rattle.answers.specs.Answers.{decoded_outcome};
ghost use Rattle.frame.specs.Frame.{frame};
ghost use Rattle.room.specs.Inner.Fitting.{RoomToDecode};
ghost use Rattle.decoding.specs.Decoding.{left, fitted};

use answers::decode::{DecodeRefusal, Decoded};
use cost_table::{ends_in, fill};
use frame::CheckedFrame;
use passes::NO_PATH;
use settling::settle;
use traceback::follow;

// Backward over the blocks to the distance, with notes in the cost table; where there is a path from the start state, forward along the
// notes to its words, and their masks; and the notes turned into costs. K plays no part here, so the promise is for any.
pub fn decode_with(
    f: CheckedFrame,
    costs: &mut [u32],
    labels: &mut [u16],
    goals: &mut [u8],
    masks: &mut [u8],
) -> Decoded
    requires { RoomToDecode f.indices.now costs.old labels.old goals.old masks.old }
    ensures { (k : ℕ) → left (decoded_outcome result) costs.new labels.new goals.new masks.new
        ≡ fitted (frame f.entry.sections.now k f.entry.indices.now f.entry.received.now f.entry.erased.now f.entry.start f.entry.end)
        costs.old labels.old goals.old masks.old }
{
    let from = usize::from(f.start);
    let ends = ends_in(usize::from(f.end));
    let to_pay = fill(
        f.sections,
        &f.found.starts,
        &f.found.views,
        f.indices,
        f.received,
        f.erased,
        ends,
        costs,
    );
    let distance = to_pay[from];
    if distance == NO_PATH {
        settle(f.sections, &f.found.starts, f.indices, ends, costs);
        return Err(DecodeRefusal::NoPath);
    }
    follow(f.indices.len(), from, costs, labels, goals);
    masks::put_masks(f.received, f.erased, labels, masks);
    settle(f.sections, &f.found.starts, f.indices, ends, costs);
    Ok(distance)
}
