// Flags of a Data type; another type has none.
pub const NONE: u8 = 0;

pub const OPAQUE: u8 = 1;

pub const DECORATED: u8 = 2;

pub const OPAQUE_DECORATED: u8 = 3;
