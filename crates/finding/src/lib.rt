// The levels of a report while it is read: which level has an HL01, what a parent says to its children, whether all marks are filled.
#![tactic(auto)]

pub mod filling;
pub mod known;
pub mod lists;
pub mod notes;
pub mod parents;
pub mod search;
mod tables;
