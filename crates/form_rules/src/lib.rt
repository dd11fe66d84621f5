// Which packet agrees with what a place holds, as a relation that names no decoder, and that there is at most one. No functions: crate
// `form` has them.
#![tactic(auto)]

// What became of a place: it waits for more fragments; its packet was formed; or no packet agrees with what it holds.
#[derive(Clone, Copy, Debug, PartialEq, Eq)]
pub enum Formed {
    Waits,
    Packet { length: usize, missing: usize },
    Nothing,
}
