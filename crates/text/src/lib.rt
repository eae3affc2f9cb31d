// The ground of a reading: the three separators, and the parts of a segment.
#![tactic(auto)]

pub mod bin;
pub mod compare;
pub mod lines;
pub mod lookup;
pub mod search;
pub mod separators;
