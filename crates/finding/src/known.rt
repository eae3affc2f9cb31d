// What is known of the levels so far.
use crate::lists::LISTS;

// The bytes and their separator, the two tables, and the last level of each list.
#[derive(Clone, Copy, Drop)]
pub struct Known<'a> {
    pub bytes: &'a [u8],
    pub separator: u8,
    pub segments: &'a [u64],
    pub levels: &'a [u64],
    pub lasts: &'a [u32; LISTS],
}
