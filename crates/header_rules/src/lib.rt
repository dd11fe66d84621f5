// Clause 7.1 as definitions: the header of a fragment, the checks 2 to 8, and that what is written reads back. No functions: crate
// `header` has them.
#![tactic(auto)]

use cut_rules::Address;

// The fields of a header. Without FEC there is no RSk and no RSz, and both are 0.
#[derive(Clone, Copy)]
pub struct Header {
    pub number: u16,
    pub index: u32,
    pub count: u32,
    pub fec: bool,
    pub rsk: u8,
    pub rsz: u8,
    pub address: Option<Address>,
    pub plen: u16,
}
