// The 34 tags, what a row of the list is, and the rows of each profile.
#![tactic(auto)]

pub mod list;
pub mod profile;
pub mod tags;
