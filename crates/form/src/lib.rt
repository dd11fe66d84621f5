// Forming a packet from what a place holds (document 01, "The four places"): when the fragments suffice, and which packet agrees with them.
#![tactic(auto)]

mod calls;
mod coded;
mod plain;

pub use calls::form;
pub use form_rules::Formed;
