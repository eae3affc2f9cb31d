// What makes a level entitled to its parent: the rules that look into no table.
#![tactic(auto)]

pub mod codes;
pub mod judging;
mod marks;
pub mod widths;
