// Where the fields of a type stand in its record.
pub const FLAG: usize = 1;

pub const FIRST: usize = 2;

pub const COUNT: usize = 4;
