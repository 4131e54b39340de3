// Kinds of steps of a path.
pub const PAIR: u8 = 0;

pub const TUPLE: u8 = 1;

pub const CONSTR: u8 = 2;

pub const LIST: u8 = 3;

pub const LISTTAIL: u8 = 4;
