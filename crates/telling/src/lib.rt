// The story of a log is said in specs/; what follows from it is proved in proofs/. There is no code here: `tell` has it.
#![tactic(auto)]
