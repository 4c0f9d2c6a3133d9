// Several best paths of a chain, for C and Rust: the answer in plain numbers.

#![tactic(auto)]

ghost use Rattle.frame.specs.Frame.{frame};
ghost use Rattle.path_list.specs.Listing.{listing, DecodeListLeft};

// Lists the best paths of a chain of blocks over k sections, so many as `paths` says or all where fewer exist.
pub fn decode_list_numbered(
    sections: &[u16],
    k: usize,
    indices: &[u8],
    received: &[u16],
    erased: &[u8],
    start: u8,
    end: u8,
    paths: usize,
    costs: &mut [u32],
    distances: &mut [u32],
    labels: &mut [u16],
    goals: &mut [u8],
    values: &mut [u32; 4],
) -> u32
    ensures { DecodeListLeft (listing
        (frame sections.now k indices.now received.now erased.now start end) paths
        costs.old distances.old labels.old goals.old) result
        costs.new distances.new labels.new goals.new values.new }
{
    let answer = chain_list::decode_list(
        sections, k, indices, received, erased, start, end, paths, costs, distances, labels, goals,
    );
    answers::store(answer, values)
}
