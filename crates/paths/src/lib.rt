// The theory of best paths: definitions in specs/, theorems in proofs/, and no code but what ranks and notes are made of as constants, one
// for each definition of specs/inner/Ranked.

#![tactic(auto)]

use trellis::MOST_STATES;

pub const LABEL_UNIT: u64 = (2 * MOST_STATES) as u64;

pub const DISTANCE_UNIT: u64 = LABEL_UNIT * 65536;

pub const NOTE_UNIT: u64 = 4294967296;

pub const TOP_RANK: u64 = NOTE_UNIT * DISTANCE_UNIT - 1;

pub const NOTE_CYCLE: u32 = (NOTE_UNIT / DISTANCE_UNIT) as u32;
