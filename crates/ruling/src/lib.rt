// The rules of a ruled segment, applied to it by its layout.
#![tactic(auto)]

pub mod ruled;
mod units;
mod usual;
