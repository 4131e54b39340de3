// The panel file: sizes of its records and its trailer in bytes, and what a panel may have at most.
use crate::WORD_SIZE;

pub const RECORD_SIZE: usize = 8;

pub const PART_SIZE: usize = 2;

// Records, children, pool.
pub const PANEL_STARTS: usize = 3;

// The starts, the length.
pub const PANEL_TRAILER: usize = WORD_SIZE * (PANEL_STARTS + 1);

pub const PANEL_MOST: usize = 16384;

pub const RECORDS_MOST: usize = 512;

pub const PANEL_DEPTH_MOST: u8 = 32;

// The length stands so far from the end.
pub const PANEL_LENGTH_BACK: usize = WORD_SIZE;

pub const PAIR_PARTS: usize = 2;
