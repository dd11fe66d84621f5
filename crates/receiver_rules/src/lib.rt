// Clause 7.4 as definitions: what the receiver answers, keeps and hands out, and that no second reception fits. No functions: crate
// `receiver` has them.
#![tactic(auto)]

use base_rules::Refusal;
use places_rules::{Place, Table};

// What became of a fragment. Each answer but a refusal tells the number of an open place that the fragment displaced.
#[derive(Clone, Copy, Debug, PartialEq, Eq)]
pub enum Received {
    Kept(Option<u16>),
    Delivered {
        length: usize,
        missing: usize,
        displaced: Option<u16>,
    },
    Damaged(Option<u16>),
}

// The record after a call, and the answer.
#[derive(Clone, Copy)]
pub struct Reply {
    pub table: Table,
    pub answer: Result<Received, Refusal>,
}

// What a datagram changes: place `at` is `place` now, past the fourth none is another; which is displaced next; and the answer.
#[derive(Clone, Copy)]
pub struct Change {
    pub at: usize,
    pub place: Place,
    pub oldest: u8,
    pub answer: Result<Received, Refusal>,
}

// What a query shows of a place.
#[derive(Clone, Copy, Debug, PartialEq, Eq)]
pub enum Seen {
    Free,
    Open(u16),
    Delivered(u16),
    Spoiled(u16),
}

// The four places as a query shows them.
#[derive(Clone, Copy, Debug, PartialEq, Eq)]
pub struct Shown {
    pub first: Seen,
    pub second: Seen,
    pub third: Seen,
    pub fourth: Seen,
}

// The record after clearing, and whether it was cleared.
#[derive(Clone, Copy)]
pub struct Cleared {
    pub table: Table,
    pub answer: Result<(), Refusal>,
}
