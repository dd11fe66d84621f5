// Clauses 7.3.1 and 7.4.4 as definitions: the calls of the Reed-Solomon code, and R4. No functions: crates `code_encoder` and
// `code_decoder` have them, over `code_solver` and `code_lanes`.
#![tactic(auto)]

// What became of missing bytes: all are filled in; no word of the code has the bytes that are there; or too many are missing.
#[derive(Clone, Copy, Debug, PartialEq, Eq)]
pub enum Filled {
    Done,
    Nothing,
    NotEnough,
}
