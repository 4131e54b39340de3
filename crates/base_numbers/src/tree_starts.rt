// Which start of a tree's trailer is which.
pub const NODES: usize = 0;

pub const CASES: usize = 1;

pub const BINDINGS: usize = 2;

pub const PATHS: usize = 3;

pub const STEPS: usize = 4;

pub const POOL: usize = 5;
