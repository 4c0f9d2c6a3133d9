// Chain decoding: sections one behind another, for each block a section index, a received label and an erasure mask, a start and an
// end state. `decode` answers for all arguments, by an equation with `decoding`: the outcome of document 01 and the whole content of
// the four buffers.

#![tactic(auto)]

ghost use Rattle.std.specs.Prelude.{◌≡◌};
ghost use Rattle.answers.specs.Answers.{decoded_outcome};
ghost use Rattle.frame.specs.Frame.{frame};
ghost use Rattle.decoding.specs.Decoding.{left, decoding};

pub use answers::decode::{DecodeRefusal, Decoded};
pub use frame::{first_bad, frame_bad};
use frame_decoding::decode_frame;

// Decodes one frame over the K sections that lie one behind another in `sections`: the first path of least distance from state `start`
// to state `end`, where block b takes a word of section `indices[b]`, and `received[b]` and `erased[b]` are its received label and its
// erasure mask. For all arguments the answer and every place of the four buffers afterwards are those of `decoding`: on success the
// distance, with the cost table, the path's labels, its goals and its masks in front of the buffers; on "no path" the cost table alone;
// any other refusal, checked in the order of document 01, leaves the buffers as they were. Places beyond are unchanged.
pub fn decode(
    sections: &[u16],
    k: usize,
    indices: &[u8],
    received: &[u16],
    erased: &[u8],
    start: u8,
    end: u8,
    costs: &mut [u32],
    labels: &mut [u16],
    goals: &mut [u8],
    masks: &mut [u8],
) -> Decoded
    ensures { left (decoded_outcome result) costs.new labels.new goals.new masks.new
        ≡ decoding (frame sections.now k indices.now received.now erased.now start end)
        costs.old labels.old goals.old masks.old }
{
    // Matched in its place, so that where the sections begin is lent from the result and not moved out of it.
    match &sections::find(sections, k) {
        Ok(found) => decode_frame(
            sections, found, k, indices, received, erased, start, end, costs, labels, goals, masks,
        ),
        Err(index) => Err(DecodeRefusal::Section(*index)),
    }
}
