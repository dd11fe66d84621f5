// Clause 7.3 as definitions: the fragments of a packet, and that they are received and join again. No functions: crate `sender` has them.
#![tactic(auto)]

// How a buffer of all fragments is split: f fragments of h + s bytes each, the last one of h + last.
#[derive(Clone, Copy, Debug, PartialEq, Eq)]
pub struct Split {
    pub f: usize,
    pub h: usize,
    pub s: usize,
    pub last: usize,
}
