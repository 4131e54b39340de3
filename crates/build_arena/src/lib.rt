// The arena: the tree before it is hoisted, in the work buffer, as records of nodes, cases and bindings at fixed places.
// The records are those of a tree file whose paths are numbers of another table, so that a path field can be any number for a path.
#![tactic(auto)]

use base_numbers::tree::{CASE_SIZE, CASES_MOST, NODE_SIZE, NODES_MOST};

pub mod reading;
pub mod writing;

// Nodes stand from 0 on; each section has room for as many records as a tree may have.
const CASES_START: usize = NODE_SIZE * NODES_MOST;

const BINDINGS_START: usize = CASES_START + CASE_SIZE * CASES_MOST;
