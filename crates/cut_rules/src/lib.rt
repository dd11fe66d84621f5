// Clause 7.2 and document 01, "PFT layer", as definitions: settings, sizes, the block, what is missing, and what is claimed of them. No
// functions: crate `cut` has them.
#![tactic(auto)]

// The bytes of the least header and of the longest; specs/Sizes.antt says of what.
pub const LEAST_H: usize = 14;

pub const MOST_H: usize = 20;

// The pair of addresses that a header may carry.
#[derive(Clone, Copy, Debug, PartialEq, Eq)]
pub struct Address {
    pub source: u16,
    pub dest: u16,
}

// By which edition's rule the most bytes of a fragment are worked out: document 000's, or document 001's.
#[derive(Clone, Copy, Debug, PartialEq, Eq)]
pub enum Rule {
    Older,
    Newer,
}

// What the sender is set to: FEC, the losses m that it is set for, the most bytes of a datagram, the address, the rule of sizes.
#[derive(Clone, Copy)]
pub struct Settings {
    pub fec: bool,
    pub m: usize,
    pub mtu: usize,
    pub address: Option<Address>,
    pub rule: Rule,
}

// The figures of a cut, by the standard's letters: `room` is document 01's S, `total` its L; c, k, z, n are 0 without FEC.
#[derive(Clone, Copy)]
pub struct Figures {
    pub c: usize,
    pub k: usize,
    pub z: usize,
    pub n: usize,
    pub h: usize,
    pub room: usize,
    pub total: usize,
    pub f: usize,
    pub s: usize,
    pub assured: usize,
}
