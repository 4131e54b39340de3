// Which start of a sheet's trailer is which.
pub const TYPES: usize = 0;

pub const CONSTRUCTORS: usize = 1;

pub const ENTRIES: usize = 2;

pub const PATTERNS: usize = 3;

pub const CHILDREN: usize = 4;

pub const CLAUSES: usize = 5;

pub const POOL: usize = 6;
