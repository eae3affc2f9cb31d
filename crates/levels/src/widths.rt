// How many numbers a record of each lent table has.
pub const SEGMENT_WIDTH: usize = 4;

pub const LEVEL_WIDTH: usize = 4;
