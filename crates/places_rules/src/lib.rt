// Document 01, "The four places", as definitions: the record, 14, and 9 to 12. No functions: crate `places` has them.
#![tactic(auto)]

use base_rules::{MOST_F, PLACE};

// Places in a table.
pub const FOUR: usize = 4;

// The bytes of all four, which the caller lends.
pub const ALL_PLACES: usize = FOUR * PLACE;

// The condition of a place.
pub const FREE: u8 = 0;

pub const OPEN: u8 = 1;

pub const DELIVERED: u8 = 2;

pub const SPOILED: u8 = 3;

// What a place holds: its condition and the number of its packet; of the packet's cut f, FEC, k, z; s, 0 while unknown; without FEC
// the size of the last fragment, 0 while it is not kept; and which fragments are kept.
#[derive(Clone, Copy)]
pub struct Place {
    pub condition: u8,
    pub number: u16,
    pub count: u32,
    pub fec: bool,
    pub rsk: u8,
    pub rsz: u8,
    pub size: u16,
    pub last: u16,
    pub kept: [bool; MOST_F],
}

// All of them, and which is to be displaced next once none is free.
#[derive(Clone, Copy)]
pub struct Table {
    pub places: [Place; FOUR],
    pub oldest: u8,
}
