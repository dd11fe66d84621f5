// Annex A as definitions, and the law of the residue 1D0F hex. No functions: crate `crc` has them.
#![tactic(auto)]
