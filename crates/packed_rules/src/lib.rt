// The record of the places as 1,081 bytes and back, as definitions. No functions: crate `packed` has them.
#![tactic(auto)]

use base_rules::Refusal;
use places_rules::Table;

// What unpacking gives: the record, a fresh one where it is refused.
#[derive(Clone, Copy)]
pub struct Unpacked {
    pub table: Table,
    pub answer: Result<(), Refusal>,
}
