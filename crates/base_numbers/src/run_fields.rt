// Where the fields of a run stand: the fields of a constructor, first and count alone; the first stands at 0.
pub const COUNT: usize = 2;
