// Which of a node's five words is what: of a switch and a list switch, then of a leaf and a hoist.
pub const PATH: usize = 0;

pub const FIRST_CASE: usize = 1;

pub const CASES: usize = 2;

pub const TAIL_CASES: usize = 3;

// One more than its node, or 0.
pub const DEFAULT: usize = 4;

pub const CLAUSE: usize = 0;

pub const FIRST_BINDING: usize = 1;

pub const BINDINGS: usize = 2;

// Of a hoist alone.
pub const CHILD: usize = 3;

// Of neither.
pub const UNUSED: usize = 4;
