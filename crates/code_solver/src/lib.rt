// The missing bytes of a chunk (clause 7.4.4): what depends on the missing places alone, and the missing bytes from the syndromes.
#![tactic(auto)]

mod cells;
mod masks;
mod patterns;
mod solving;
mod syndromes;

pub use cells::mark_lost;
pub use masks::{clear, fill_in, locators_of, missing_count};
pub use patterns::{COLUMNS, pattern};
pub use solving::solve;
pub use syndromes::{make_roots, syndromes_at};
