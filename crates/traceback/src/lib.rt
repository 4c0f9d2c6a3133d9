// The notes of the cost table followed from block to block: the words of the best path.

#![tactic(auto)]

ghost use Rattle.passes.specs.Inner.Chains.{Followed, FollowedTo};

use ranks::{goal_of, label_of};
use trellis::COSTS_A_BLOCK;

// The first path of least cost from state `start`: writes the labels and goals of its words, by the notes.
#[tactic(auto, using(passes::proofs::Chains::here))]
pub fn follow(blocks: usize, start: usize, notes: &[u32], labels: &mut [u16], goals: &mut [u8])
    requires { Followed blocks start notes.now labels.old goals.old }
    ensures { FollowedTo blocks start notes.now labels.old labels.new goals.old
        goals.new }
{
    let mut s = start;
    for b in 0..blocks {
        let note = notes[COSTS_A_BLOCK * b + s];
        let goal = goal_of(note);
        labels[b] = label_of(note);
        goals[b] = goal;
        s = usize::from(goal);
    }
}
