// Document 01 as definitions: this crate is its specs/, and laws over them in proofs/. It has no code, so that nobody has to believe a line
// of code to believe the definitions.
#![tactic(auto)]
