// What accepted files give to the crates above: this crate is its specs/.
#![tactic(auto)]
