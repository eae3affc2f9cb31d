// Writing an accepted transaction again with other separators.
#![tactic(auto)]

mod change;
mod collisions;
pub mod rewriting;
mod table;
mod writing;
