// `original` has no code: specs/ writes the Rust client down as definitions, and proofs/ holds it to `rules`.
#![tactic(auto)]
