// Kinds of cases of a switch.
pub const CONSTR: u8 = 0;

pub const INT: u8 = 1;

pub const BYTES: u8 = 2;

pub const LIST: u8 = 3;

pub const LIST_WITH_TAIL: u8 = 4;
