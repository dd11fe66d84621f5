// No code: sender and receiver together, which is demand 3 (specs/Demand.antt; proofs/Proved.antt cites the proofs).
#![tactic(auto)]
