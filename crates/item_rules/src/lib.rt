// Clauses 5.1 and 5.2 as definitions: an item, a packet as a run of items, the faults of an item. No functions: crate `item` has them.
#![tactic(auto)]

// A length in bits, as a TAG length counts.
#[derive(Clone, Copy, Debug, PartialEq, Eq)]
pub struct Bits(pub u32);

// A length in bytes, as a value is counted.
#[derive(Clone, Copy, Debug, PartialEq, Eq)]
pub struct Bytes(pub usize);

// An item of a packet: its name as a big-endian number, its length, and the place of its value in the lent packet; the byte of that packet at which
// it starts, with its name, and the bits of its last byte that are unused.
#[derive(Clone, Copy, Debug, PartialEq, Eq)]
pub struct Item {
    pub name: u32,
    pub bits: Bits,
    pub from: usize,
    pub len: Bytes,
    pub start: usize,
    pub unused: Bits,
}

// What stands at a position, where nothing is refused: an item, or the end with so many bytes of padding.
#[derive(Clone, Copy, Debug, PartialEq, Eq)]
pub enum Step {
    Item(Item),
    End(Bytes),
}

// Whether names may repeat, as the caller says: one word for a call, for every level of a walk and both packets of a finding.
#[derive(Clone, Copy)]
pub enum Repeats {
    Forbidden,
    Allowed,
}
