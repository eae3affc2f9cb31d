// What the programs share: where a report comes from, how it is read, how codes and refusals are printed, and hints.
#![tactic(auto)]

pub mod codes;
pub mod files;
pub mod hints;
pub mod input;
pub mod judging;
pub mod program;
pub mod refusing;
pub mod warning;
