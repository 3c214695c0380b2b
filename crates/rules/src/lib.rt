// `rules` has no code: what is right is said in specs/, and what follows from it is proved in proofs/.
#![tactic(auto)]
