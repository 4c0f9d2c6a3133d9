// Faults 9 and 10 of a frame whose sections are found, and decoding where there is none.

#![tactic(auto)]

ghost use Rattle.std.specs.Prelude.{◌≡◌, ℕ};
ghost use Rattle.answers.specs.Answers.{decoded_outcome};
ghost use Rattle.sections.specs.Inner.Found.{AllFound};
ghost use Rattle.frame.specs.Frame.{frame};
ghost use Rattle.decoding.specs.Decoding.{left, fitted, framed};

use answers::decode::{DecodeRefusal, Decoded};
use decoding::decode_with;
use frame::CheckedFrame;
use sections::Found;

// Fault 10, and then what follows where there is none.
fn decode_blocks(
    f: CheckedFrame,
    costs: &mut [u32],
    labels: &mut [u16],
    goals: &mut [u8],
    masks: &mut [u8],
) -> Decoded
    ensures { (k : ℕ) → left (decoded_outcome result) costs.new labels.new goals.new masks.new
        ≡ fitted (frame f.entry.sections.now k f.entry.indices.now f.entry.received.now f.entry.erased.now f.entry.start f.entry.end)
        costs.old labels.old goals.old masks.old }
{
    if let Some(needed) = room::needed_to_decode(
        f.indices.len(),
        costs.len(),
        labels.len(),
        goals.len(),
        masks.len(),
    ) {
        return Err(DecodeRefusal::Short(needed));
    }
    decode_with(f, costs, labels, goals, masks)
}

// Fault 9, and then what follows where there is none.
pub fn decode_frame(
    sections: &[u16],
    found: &Found,
    k: usize,
    indices: &[u8],
    received: &[u16],
    erased: &[u8],
    start: u8,
    end: u8,
    costs: &mut [u32],
    labels: &mut [u16],
    goals: &mut [u8],
    masks: &mut [u8],
) -> Decoded
    requires { AllFound sections.now found.now.starts found.now.views k }
    ensures { left (decoded_outcome result) costs.new labels.new goals.new masks.new
        ≡ framed (frame sections.now k indices.now received.now erased.now start end)
        costs.old labels.old goals.old masks.old }
{
    match frame::checked(sections, found, k, indices, received, erased, start, end) {
        Ok(f) => decode_blocks(f, costs, labels, goals, masks),
        Err(bad) => Err(DecodeRefusal::Block(bad)),
    }
}
