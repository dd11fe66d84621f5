// The nested walk as definitions, whole and step by step, and that both hand out the same. No functions: crate `walk` has them.
#![tactic(auto)]

use item_rules::{Bytes, Item};

// Nesting: items of the outer packet have depth 0, and an item below this depth is refused.
pub const DEEPEST: usize = 4;

// Depths at which a packet may begin.
pub const LEVELS: usize = DEEPEST + 1;

// An item of a walk, with its depth.
#[derive(Clone, Copy, Debug, PartialEq, Eq)]
pub struct Visit {
    pub depth: usize,
    pub item: Item,
}

// What a step of a walk hands out, where nothing is refused.
#[derive(Clone, Copy, Debug, PartialEq, Eq)]
pub enum Handed {
    Item(Visit),
    End(Bytes),
}

// A place in a walk: the number with which it was refused, or 0, any number, since a caller may make one; the position, the depth there, and where the
// packet of each depth ends.
#[derive(Clone, Copy)]
pub struct Walker {
    pub refusal: u8,
    pub at: usize,
    pub depth: usize,
    pub ends: [usize; LEVELS],
}

// What a step hands out, and where the walk then stands. The refusal is a number, since a walk shows that of its walker as it is.
#[derive(Clone, Copy)]
pub struct Walked {
    pub handed: Result<Handed, u8>,
    pub next: Walker,
}
