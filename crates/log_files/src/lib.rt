// What the lines of a file of logs are, is said in specs/; what follows from it is proved in proofs/. There is no code here: `log_lines` has it.
#![tactic(auto)]
