// Where the fields of a tree's records stand; a kind, a name and a first step stand at 0.
use crate::WORD_SIZE;

// The zero byte of a node and of a case; the flag of a step.
pub const ZERO: usize = 1;

pub const FLAG: usize = 1;

// The words of a node, a case and a step follow these two bytes; a node has five.
pub const WORDS: usize = 2;

pub const CASE_NUMBER: usize = WORDS;

pub const CASE_LENGTH: usize = WORDS + WORD_SIZE;

pub const CASE_CHILD: usize = WORDS + 2 * WORD_SIZE;

pub const STEP_INDEX: usize = WORDS;

pub const STEP_TYPE: usize = WORDS + WORD_SIZE;

pub const BINDING_PATH: usize = WORD_SIZE;

pub const PATH_COUNT: usize = WORD_SIZE;
