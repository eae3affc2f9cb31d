// What makes a segment right by itself.
#![tactic(auto)]

mod components;
pub mod fitting;
pub mod layout;
pub mod rules;
pub mod segment;
pub mod verdict;
