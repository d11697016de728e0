// What is said of tests and of their answers, for the definitions and the proofs of the other crates. There is no code here.

#![tactic(auto)]
