// What a reading answers.
use elements::verdict::Reason;

// Answer 0: how many segments and levels there are, and how many bytes the transaction takes.
#[derive(Clone, Copy, Debug, Drop, PartialEq, Eq)]
pub struct Accepted {
    pub segments: usize,
    pub levels: usize,
    pub bytes: usize,
}

// Any other answer: its reason, which has the answer's number, the segment, the byte where that segment starts, and the element; 0
// where none is named, as callers in C are told.
#[derive(Clone, Copy, Debug, Drop, PartialEq, Eq)]
pub struct Refusal {
    pub reason: Reason,
    pub segment: usize,
    pub byte: usize,
    pub element: usize,
}

// The acceptance or the refusal.
pub type Answer = Result<Accepted, Refusal>;
