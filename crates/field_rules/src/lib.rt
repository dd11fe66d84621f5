// The field of 256 elements as definitions, its laws, and the rule of each table. No functions: crate `field` has them.
#![tactic(auto)]

// The logarithms of two elements.
#[derive(Clone, Copy)]
pub struct Pair {
    pub a: usize,
    pub b: usize,
}
