// The paths that were kept, read out: each from the last block to the first along its back pointers, one path behind another.

#![tactic(auto)]

ghost use Rattle.std.specs.Prelude.{◌≡◌, ◌+◌, ◌*◌, ◌<◌, ◌≤◌, length};
ghost use Rattle.trellis.specs.Bounds.{most_paths, most_blocks};
ghost use Rattle.dearest.specs.Inner.Items.{cost_in};
ghost use Rattle.beginnings.specs.Inner.Trails.{NotedWell};
ghost use Rattle.readout.specs.Inner.Read.{ReadPath, Placed, PathsRead};

use beginnings::BACK;
use codes::{label_of, root_of, vertex_of};
use dearest::code_of;
use trellis::MOST_PATHS;

// The labels and goals of one path, from the last block to the first.
fn read_path(
    back: &[u32; BACK],
    blocks: usize,
    slot: usize,
    at: usize,
    labels: &mut [u16],
    goals: &mut [u8],
)
    requires { (blocks ≤ most_blocks) × (slot < most_paths) × (at ≤ most_paths * most_blocks) × (at + blocks ≤ length labels.old)
        × (at + blocks ≤ length goals.old) × NotedWell back.now }
    ensures { ReadPath back.now blocks slot at labels.old labels.new goals.old
        goals.new }
{
    let mut j = slot;
    for b in (0..blocks).rev() {
        let c = back[MOST_PATHS * b + j];
        labels[at + b] = label_of(c);
        goals[at + b] = vertex_of(c) as u8;
        j = root_of(c);
    }
}

// The cost of a slot in the width of a distance.
fn distance_of(slot: u64) -> u32
    ensures { result ≡ cost_in slot }
{
    (slot / 4294967296) as u32
}

// The paths of the first `count` slots, in their order.
pub fn read_paths(
    slots: &[u64; MOST_PATHS],
    count: usize,
    back: &[u32; BACK],
    blocks: usize,
    distances: &mut [u32],
    labels: &mut [u16],
    goals: &mut [u8],
)
    requires { (count ≤ most_paths) × (blocks ≤ most_blocks) × (count ≤ length distances.old) × (count * blocks ≤ length labels.old)
        × (count * blocks ≤ length goals.old) × Placed slots.now count × NotedWell back.now }
    ensures { PathsRead slots.now back.now blocks distances.old distances.new
        labels.old labels.new goals.old goals.new count }
{
    let mut at: usize = 0;
    for r in 0..count {
        let x = slots[r];
        distances[r] = distance_of(x);
        read_path(back, blocks, root_of(code_of(x)), at, labels, goals);
        at += blocks;
    }
}
