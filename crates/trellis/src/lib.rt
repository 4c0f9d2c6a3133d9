// The theory of trellis sections: definitions in specs/, theorems in proofs/, and no code but the bounds as constants, one for each
// definition of specs/Bounds.

#![tactic(auto)]

pub const LEAST_Q: usize = 2;

pub const MOST_Q: usize = 4;

pub const MOST_SYMBOLS: usize = 8;

pub const MOST_STATES: usize = 16;

pub const MOST_WORDS: usize = 1024;

pub const MOST_SECTIONS: usize = 16;

pub const MOST_BLOCKS: usize = 256;

pub const MOST_PATHS: usize = 16;

pub const MOST_STATE_BITS: usize = 4;

pub const MOST_ROWS: usize = 10;

pub const COSTS_A_BLOCK: usize = MOST_STATES;

pub const MOST_BYTES: usize = 65535;
