// The record of the four places as bytes, for a caller in another language or a program that holds it between calls.
#![tactic(auto)]

mod reading;
mod writing;

use base::MOST_F;
pub use packed_rules::Unpacked;
use places::FOUR;
pub use reading::unpack;
pub use writing::pack;

// The bytes of a place's figures, of a place, and of the record.
const FIGURES: usize = 14;

const ONE: usize = FIGURES + MOST_F;

pub const RECORD: usize = FOUR * ONE + 1;
