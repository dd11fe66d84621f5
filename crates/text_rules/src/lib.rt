// Text in a lent buffer as definitions. No functions: crate `text` has them.
#![tactic(auto)]
