// Decoding a chain, for C and Rust: the answer in plain numbers.

#![tactic(auto)]

ghost use Rattle.frame.specs.Frame.{frame};
ghost use Rattle.decoding.specs.Decoding.{decoding, DecodeLeft};

// Decodes a chain of blocks over k sections.
pub fn decode_numbered(
    sections: &[u16],
    k: usize,
    indices: &[u8],
    received: &[u16],
    erased: &[u8],
    start: u8,
    end: u8,
    costs: &mut [u32],
    labels: &mut [u16],
    goals: &mut [u8],
    masks: &mut [u8],
    values: &mut [u32; 4],
) -> u32
    ensures { DecodeLeft (decoding
        (frame sections.now k indices.now received.now erased.now start end)
        costs.old labels.old goals.old masks.old) result
        costs.new labels.new goals.new masks.new values.new }
{
    let answer = chain::decode(
        sections, k, indices, received, erased, start, end, costs, labels, goals, masks,
    );
    answers::store(answer, values)
}
