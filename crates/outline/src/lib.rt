// Levels listed under their parents, from a level table that the caller lends.
#![tactic(auto)]

pub mod answer;
mod fitting;
mod records;
mod straying;
pub mod walking;
