// The row that comes next: the next-row table and its lookup.
#![tactic(auto)]

pub mod next;
