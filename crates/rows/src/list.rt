// A row of the list.

// The number of its tag, how often it may stand one after the other (0: freely), whether it must stand, and the row that opens the loop around
// it (0: none). A row that opens a loop has the loop's mark, and the loop around its own. By place and not by name, as a line of the list is.
#[derive(Clone, Copy, Debug, PartialEq, Eq, Drop)]
pub struct Row(pub u8, pub u8, pub bool, pub u8);

// The number of the last row; the first is 1.
pub const LAST: u8 = 79;

// The entries of the next-row table, one for each row and tag.
pub const ENTRIES: usize = 2686;
