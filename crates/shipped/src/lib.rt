// No code: demand 3 of the library that is shipped (specs/Main.antt: the page; Runs.antt: the runs; proofs/Proved.antt cites the proofs).
#![tactic(auto)]
