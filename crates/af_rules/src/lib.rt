// Clause 6 as definitions: the AF packet, its checks in their order, and the round trip. No functions: crate `af` has them.
#![tactic(auto)]

// What a checked packet says of itself: LEN counts the payload.
#[derive(Clone, Copy)]
pub struct Figures {
    pub seq: u16,
    pub cf: bool,
    pub minor: u8,
    pub len: u32,
}
