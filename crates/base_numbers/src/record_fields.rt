// Where the fields of a pattern and of a panel record stand; the kind stands at 0.
pub const ZERO: usize = 1;

pub const A: usize = 2;

// First and count, as in a run.
pub const RUN: usize = 4;

pub const FIRST: usize = 4;

pub const COUNT: usize = 6;
