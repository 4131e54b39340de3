// Which start of a panel's trailer is which.
pub const RECORDS: usize = 0;

pub const PARTS: usize = 1;

pub const POOL: usize = 2;
