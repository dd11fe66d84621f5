// Document 01's listing of an AF packet as a text. No functions: crate `lister` has them.
#![tactic(auto)]
