// What a reading of a transaction is told, and what it answers.
#![tactic(auto)]

pub mod answer;
pub mod how;
