// Which field of a bad log is off is said in specs/; what follows from it is proved in proofs/. There is no code here: `off_field` has it.
#![tactic(auto)]
