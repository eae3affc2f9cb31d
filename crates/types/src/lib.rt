// The six types of document 01, and whether a value is of a type and a length.
#![tactic(auto)]

mod dates;
pub mod digits;
pub mod kind;
pub mod numbers;
pub mod quick;
pub mod values;
