// The records of a tree, each read and written at its place in a buffer: nodes, cases, bindings, paths and steps.
// The tree file and the arena, in which a tree is built, have the same records, each in sections of its own. Where a record stands is
// the caller's; what it has there is said here once, for both.
#![tactic(auto)]

pub mod reading;
pub mod writing;
