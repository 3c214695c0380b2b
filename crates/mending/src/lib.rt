// What a mended log is, is said in specs/; what follows from it is proved in proofs/. There is no code here: `mend` has it.
#![tactic(auto)]
