// Theorems about the definitions of spec_rules: this crate is its specs/ and proofs/.
#![tactic(auto)]
