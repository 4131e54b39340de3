// The panels that a sheet forgets: this crate is its specs/ and proofs/.
#![tactic(auto)]
