// The sender (clause 7.3): one fragment of a packet, and all of them.
#![tactic(auto)]

mod calls;
mod parts;
mod ready;

pub use calls::{fragment, fragments};
pub use sender_rules::Split;
