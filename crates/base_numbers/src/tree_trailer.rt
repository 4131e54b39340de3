// Where each start, and the length, stand in a tree's trailer; the start of the nodes stands first.
use crate::tree::TREE_STARTS;
use crate::{WORD_SIZE, tree_starts};

pub const CASES: usize = WORD_SIZE * tree_starts::CASES;

pub const BINDINGS: usize = WORD_SIZE * tree_starts::BINDINGS;

pub const PATHS: usize = WORD_SIZE * tree_starts::PATHS;

pub const STEPS: usize = WORD_SIZE * tree_starts::STEPS;

pub const POOL: usize = WORD_SIZE * tree_starts::POOL;

pub const LENGTH: usize = WORD_SIZE * TREE_STARTS;
