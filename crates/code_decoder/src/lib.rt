// The decoder of the Reed-Solomon code (clause 7.4.4): the missing bytes of a chunk, and of all chunks of a block.
#![tactic(auto)]

mod block;
mod calls;
mod chunk;
mod class;

pub use calls::{fill, fill_chunk};
pub use code_rules::Filled;
