// The laws of the tree file: this crate is its specs/ and proofs/.
#![tactic(auto)]
