// Kinds of patterns.
pub const DISCARD: u8 = 0;

pub const VARIABLE: u8 = 1;

pub const ASSIGN: u8 = 2;

pub const INTEGER: u8 = 3;

pub const BYTE_STRING: u8 = 4;

pub const LIST: u8 = 5;

pub const LIST_WITH_TAIL: u8 = 6;

pub const CONSTRUCTOR: u8 = 7;

pub const PAIR: u8 = 8;

pub const TUPLE: u8 = 9;
