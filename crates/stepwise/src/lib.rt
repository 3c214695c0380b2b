// `stepwise` has no code: the engine that is handed one event at a time is said in specs/, and what follows is proved in proofs/.
#![tactic(auto)]
