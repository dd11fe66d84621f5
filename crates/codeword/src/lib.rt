// This crate has no code: specs/ defines the Reed-Solomon code, and proofs/ proves its theorems.
#![tactic(auto)]
