// The writing of an item as a definition, and that what is written reads as itself. No functions: crate `write` has them.
#![tactic(auto)]
