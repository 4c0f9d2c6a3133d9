// Several best paths of a chain, after document 02's request 6. `decode_list` answers for all arguments, by an equation with `listing`: the
// outcome and the whole content of the four buffers. The cost table is that of decoding; with what is left to pay known from every state,
// the paths grow from the first block on, and no more beginnings are kept than paths are asked for.

#![tactic(auto)]

ghost use Rattle.std.specs.Prelude.{◌≡◌};
ghost use Rattle.answers.specs.Answers.{decoded_list_outcome};
ghost use Rattle.sections.specs.Inner.Found.{AllFound};
ghost use Rattle.frame.specs.Frame.{frame};
ghost use Rattle.path_list.specs.Listing.{left, framed, listing};

pub use answers::decode_list::{DecodeListRefusal, DecodedList};
use list_room::list_blocks;
use sections::Found;

// Fault 9, and then what follows where there is none.
fn list_frame(
    sections: &[u16],
    found: &Found,
    k: usize,
    indices: &[u8],
    received: &[u16],
    erased: &[u8],
    start: u8,
    end: u8,
    paths: usize,
    costs: &mut [u32],
    distances: &mut [u32],
    labels: &mut [u16],
    goals: &mut [u8],
) -> DecodedList
    requires { AllFound sections.now found.now.starts found.now.views k }
    ensures { left (decoded_list_outcome result) costs.new distances.new labels.new goals.new
        ≡ framed (frame sections.now k indices.now received.now erased.now start end) paths
        costs.old distances.old labels.old goals.old }
{
    match frame::checked(sections, found, k, indices, received, erased, start, end) {
        Ok(f) => list_blocks(f, paths, costs, distances, labels, goals),
        Err(bad) => Err(DecodeListRefusal::Block(bad)),
    }
}

// Lists the best paths of one frame, by distance and then word order, so many as `paths` says or all where fewer exist; the frame is that
// of `decode`. For all arguments the answer and every place of the four buffers afterwards are those of `listing`: on success the number
// of paths listed, with the cost table, their distances, their labels and their goals, path after path, in front of the buffers; on "no
// path" the cost table alone; any other refusal, checked in the order of document 02, leaves the buffers as they were. Places beyond are
// unchanged.
pub fn decode_list(
    sections: &[u16],
    k: usize,
    indices: &[u8],
    received: &[u16],
    erased: &[u8],
    start: u8,
    end: u8,
    paths: usize,
    costs: &mut [u32],
    distances: &mut [u32],
    labels: &mut [u16],
    goals: &mut [u8],
) -> DecodedList
    ensures { left (decoded_list_outcome result) costs.new distances.new labels.new goals.new
        ≡ listing (frame sections.now k indices.now received.now erased.now start end) paths
        costs.old distances.old labels.old goals.old }
{
    // Matched in its place, as in decoding.
    match &sections::find(sections, k) {
        Ok(found) => list_frame(
            sections, found, k, indices, received, erased, start, end, paths, costs, distances,
            labels, goals,
        ),
        Err(index) => Err(DecodeListRefusal::Section(*index)),
    }
}
