// The Reed-Solomon encoder (clause 7.3.1): the parity of a chunk, the block of a packet, and what the generator leaves of a chunk.
#![tactic(auto)]

mod blocks;
mod calls;
mod made;
mod register;
mod rows;

pub use calls::{encode, parity};
pub use register::remainder_of;
pub use rows::{TABLE, make_table};
