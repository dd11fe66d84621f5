// No code: the starred rows of document 01, "On each side of the edge", as one statement (specs/Starred.antt, proofs/Edge.antt).
#![tactic(auto)]
