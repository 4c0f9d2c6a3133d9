// The cost of which a note has the remainder, from the costs behind its block.

#![tactic(auto)]

ghost use Rattle.std.specs.Prelude.{◌≡◌, ◌≤◌, length};
ghost use Rattle.paths.specs.Chain.{unreached};
ghost use Rattle.paths.specs.Inner.Ranked.{label_unit};
ghost use Rattle.settled.specs.Inner.Cost.{settled_cost};

use paths::{DISTANCE_UNIT, LABEL_UNIT, NOTE_CYCLE};
use ranks::goal_of;

// The goals that a note can have: the states, and others up to the one that the note of no path has.
pub const GOALS: usize = LABEL_UNIT as usize;

// The cost of which a note has the remainder, from the costs behind the block.
pub fn settled(note: u32, behind: &[u32; GOALS]) -> u32
    requires { (length behind.now ≡ label_unit) × (settled_cost behind.now note ≤ unreached) }
    ensures { result ≡ settled_cost behind.now note }
{
    let goal = usize::from(goal_of(note));
    let cost = behind[goal];
    cost + (note / (DISTANCE_UNIT as u32) + NOTE_CYCLE - cost % NOTE_CYCLE) % NOTE_CYCLE
}
