// Check 10: the length that the first short buffer needs, for decoding and for listing paths.

#![tactic(auto)]

ghost use Rattle.std.specs.Prelude.{◌≡◌, ◌≤◌, find, nat_lt};
ghost use Rattle.trellis.specs.Bounds.{most_blocks, most_paths};
ghost use Rattle.room.specs.Room.{short_of, if_any, needed_by, needed_to_decode, needed_to_list};

use trellis::COSTS_A_BLOCK;

// One buffer, of which so much is there and so much is needed, before what follows: one step of the definition `needed_by`. It is for callers
// whose buffers stand in no list; nothing of the kit calls it.
pub fn short_of(there: usize, needed: usize, follows: usize) -> usize
    ensures { result ≡ short_of there needed follows }
{
    if there < needed { needed } else { follows }
}

// The first short buffer. Of each so much is there and so much is needed.
fn first_short(buffers: &[(usize, usize)]) -> Option<(usize, usize)>
    ensures { result ≡ find (λ buffer. nat_lt buffer.0 buffer.1) buffers.now }
{
    buffers
        .iter()
        .copied()
        .find(|(there, needed)| there < needed)
}

// The length that the first short buffer needs.
fn needed_by(buffers: &[(usize, usize)]) -> Option<usize>
    ensures { result ≡ if_any (needed_by buffers.now) }
{
    let (_, needed) = first_short(buffers)?;
    Some(needed)
}

// The length that the first buffer needs which is too short for decoding.
pub fn needed_to_decode(
    blocks: usize,
    costs: usize,
    labels: usize,
    goals: usize,
    masks: usize,
) -> Option<usize>
    requires { blocks ≤ most_blocks }
    ensures { result ≡ if_any (needed_to_decode blocks costs labels goals masks) }
{
    needed_by(&[
        (costs, COSTS_A_BLOCK * blocks),
        (labels, blocks),
        (goals, blocks),
        (masks, blocks),
    ])
}

// The length that the first buffer needs which is too short for listing so many paths.
pub fn needed_to_list(
    blocks: usize,
    paths: usize,
    costs: usize,
    distances: usize,
    labels: usize,
    goals: usize,
) -> Option<usize>
    requires { (blocks ≤ most_blocks) × (paths ≤ most_paths) }
    ensures { result ≡ if_any (needed_to_list blocks paths costs distances labels goals) }
{
    let table = COSTS_A_BLOCK * blocks;
    let words = paths * blocks;
    needed_by(&[
        (costs, table),
        (distances, paths),
        (labels, words),
        (goals, words),
    ])
}
