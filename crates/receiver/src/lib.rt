// The receiver (clause 7.4; document 01, "The four places"): fragments kept in four places, and a packet handed out at the first fragment
// with which it can be formed.
#![tactic(auto)]

mod keeping;
mod table;

pub use keeping::receive;
pub use places::{Place, Table, fresh};
use receiver_rules::Change;
pub use receiver_rules::{Cleared, Received, Reply, Seen, Shown};
pub use table::{clear, query};
