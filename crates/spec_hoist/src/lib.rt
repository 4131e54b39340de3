// The theorems of hoisting: this crate is its specs/ and proofs/.
#![tactic(auto)]
