// The tree file: sizes of its records and its trailer in bytes, what a tree may have at most, and the least buffers.
use crate::WORD_SIZE;

pub const NODE_SIZE: usize = 12;

pub const CASE_SIZE: usize = 8;

pub const BINDING_SIZE: usize = 4;

pub const PATH_SIZE: usize = 4;

pub const STEP_SIZE: usize = 6;

// Nodes, cases, bindings, paths, steps, pool.
pub const TREE_STARTS: usize = 6;

// The starts, the length.
pub const TREE_TRAILER: usize = WORD_SIZE * (TREE_STARTS + 1);

pub const NODES_MOST: usize = 1024;

// Each case has a node of its own.
pub const CASES_MOST: usize = NODES_MOST;

pub const BINDINGS_MOST: usize = 4096;

pub const NODE_BINDINGS_MOST: usize = 192;

pub const TREE_ROOM: usize = 65536;

pub const WORK_ROOM: usize = 65536;

// Name, record and dropped: the words of one binding in a binding buffer.
pub const BOUND_WORDS: usize = 3;

// In u16.
pub const BOUND_ROOM: usize = BOUND_WORDS * NODE_BINDINGS_MOST;
