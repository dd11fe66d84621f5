// What the calls for C answer, by the calls that they hand on, and that no second answer fits. No functions: crate `card` has them.
#![tactic(auto)]
