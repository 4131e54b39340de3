// The sheet file: sizes of its records and its trailer in bytes, and what a sheet may have at most.
use crate::WORD_SIZE;

pub const TYPE_SIZE: usize = 6;

pub const CONSTRUCTOR_SIZE: usize = 4;

pub const ENTRY_SIZE: usize = 2;

pub const PATTERN_SIZE: usize = 8;

pub const CHILD_SIZE: usize = 2;

pub const CLAUSE_SIZE: usize = 2;

// Types, constructors, type list, patterns, child list, clauses, pool.
pub const SHEET_STARTS: usize = 7;

// The starts, the subject, the length.
pub const SHEET_TRAILER: usize = WORD_SIZE * (SHEET_STARTS + 2);

pub const SHEET_MOST: usize = 8192;

pub const TYPES_MOST: usize = 64;

pub const CONSTRUCTORS_MOST: usize = 128;

pub const ENTRIES_MOST: usize = 256;

pub const PATTERNS_MOST: usize = 192;

pub const CHILDREN_MOST: usize = 192;

pub const CLAUSES_MOST: usize = 32;

pub const DEPTH_MOST: usize = 12;

// Of panels too.
pub const TEXT_MOST: usize = 64;

// The subject's type number and the length stand so far from the end.
pub const SUBJECT_BACK: usize = 2 * WORD_SIZE;

pub const LENGTH_BACK: usize = WORD_SIZE;

// How many entries or constructors a type has, and how many children a pattern: exactly, or at least.
pub const LIST_ENTRIES: usize = 1;

pub const PAIR_ENTRIES: usize = 2;

pub const TUPLE_ENTRIES_LEAST: usize = 2;

pub const DATA_CONSTRUCTORS_LEAST: usize = 1;

pub const ASSIGN_CHILDREN: usize = 1;

pub const PAIR_CHILDREN: usize = 2;

// The tail, and an element before it.
pub const TAILED_CHILDREN_LEAST: usize = 2;
