// `bench` has no code: what a controller on the bench answers is said in specs/, and what that promises is proved in proofs/.
#![tactic(auto)]
