// Kinds of nodes of a tree.
pub const SWITCH: u8 = 0;

pub const LIST_SWITCH: u8 = 1;

pub const LEAF: u8 = 2;

pub const HOIST: u8 = 3;
