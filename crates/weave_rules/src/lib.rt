// Interleaving, its reverse and sufficing as definitions. No functions: crate `weave` has them.
#![tactic(auto)]

// Whether the fragments held suffice.
#[derive(Clone, Copy, Debug, PartialEq, Eq)]
pub enum Held {
    Enough,
    NotEnough,
}
