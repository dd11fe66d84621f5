// Document 02, Item 12, of the library that is shipped: what bailhammer_endure tells, and when it is enough. Claims alone, no functions.
#![tactic(auto)]
