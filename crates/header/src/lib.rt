// The header of a PFT fragment (clause 7.1), written and read.
#![tactic(auto)]

mod reading;
mod writing;

pub use header_rules::Header;
pub use reading::parse;
pub use writing::write_header;

// "PF", 5046 hex.
const SYNC: u16 = 0x5046;

// The FEC bit and the Addr bit; below them are the 14 bits of Plen.
const FEC_BIT: u16 = 32768;

const ADDR_BIT: u16 = 16384;
