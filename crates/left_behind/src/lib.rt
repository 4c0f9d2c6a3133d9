// What is left to pay behind a block: the row of the next block in the cost table, or where a path may end behind the last.

#![tactic(auto)]

ghost use Rattle.std.specs.Prelude.{◌≡◌, ◌+◌, ◌*◌, ◌<◌, ◌≤◌, length};
ghost use Rattle.trellis.specs.Bounds.{most_states, most_blocks, costs_a_block};
ghost use Rattle.left_behind.specs.Inner.Behind.{LeftBehind};

use trellis::COSTS_A_BLOCK;

// What is left to pay behind block b, state by state: the row of the next block in the cost table, or `ends` behind the last block.
pub fn left_behind(
    costs: &[u32],
    ends: [u32; COSTS_A_BLOCK],
    blocks: usize,
    b: usize,
) -> [u32; COSTS_A_BLOCK]
    requires { (blocks ≤ most_blocks) × (b < blocks) × (costs_a_block * blocks ≤ length costs.now) × (length ends ≡ most_states) }
    ensures { LeftBehind costs.now ends blocks b result }
{
    if b + 1 >= blocks {
        return ends;
    }
    let mut left = ends;
    let first = COSTS_A_BLOCK * (b + 1);
    left.copy_from_slice(&costs[first..first + COSTS_A_BLOCK]);
    left
}
