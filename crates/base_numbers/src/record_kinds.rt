// Kinds of panel records.
pub const INTEGER: u8 = 0;

pub const BYTES: u8 = 1;

pub const LIST: u8 = 2;

pub const PAIR: u8 = 3;

pub const TUPLE: u8 = 4;

pub const CONSTRUCTOR: u8 = 5;
