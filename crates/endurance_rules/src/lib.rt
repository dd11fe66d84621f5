// Document 02, Item 12, as definitions: how many lost fragments a cut stands, exactly, and what is claimed of that. No functions: crate
// `endurance` has them.
#![tactic(auto)]

use base_rules::{MOST_F, Refusal};

// How many lost fragments a cut stands at the most, whichever they are, and how many fragments it has.
#[derive(Clone, Copy, Debug, PartialEq, Eq)]
pub struct Losses {
    pub most: usize,
    pub f: usize,
}

// That or the refusal, and beside it a set of one fragment more, whose loss the cut does not stand: a flag for each fragment that there can be.
#[derive(Clone, Copy)]
pub struct Endurance {
    pub answer: Result<Losses, Refusal>,
    pub lost: [bool; MOST_F],
}
