// Distance and word in one number: a cost ranked by a state, the cost in a rank, the note of a rank, and the label and the goal in a note.

#![tactic(auto)]

ghost use Rattle.std.specs.Prelude.{◌≡◌, ◌/◌, ◌%◌, ◌<◌, ◌≤◌};
ghost use Rattle.trellis.specs.Bounds.{most_states};
ghost use Rattle.paths.specs.Inner.Ranked.{label_unit, distance_unit, top_rank, ranked_left, note_unit, note_goal};

use paths::{DISTANCE_UNIT, LABEL_UNIT, NOTE_UNIT};

// What is left to pay in the state s, ranked by the state.
pub fn ranked_left(cost: u32, s: usize) -> u64
    requires { s < most_states }
    ensures { (result ≡ ranked_left cost s) × (result ≤ top_rank) }
{
    u64::from(cost) * DISTANCE_UNIT + s as u64
}

// The cost of a rank, and its note.
pub fn cost_of(rank: u64) -> u32
    requires { rank ≤ top_rank }
    ensures { result ≡ rank / distance_unit }
{
    (rank / DISTANCE_UNIT) as u32
}

pub fn note_of(rank: u64) -> u32
    ensures { result ≡ rank % note_unit }
{
    (rank % NOTE_UNIT) as u32
}

// The label and the goal of a note.
pub fn label_of(note: u32) -> u16
    ensures { result ≡ note % distance_unit / label_unit }
{
    (note % (DISTANCE_UNIT as u32) / (LABEL_UNIT as u32)) as u16
}

pub fn goal_of(note: u32) -> u8
    ensures { result ≡ note_goal note }
{
    (note % (LABEL_UNIT as u32)) as u8
}
