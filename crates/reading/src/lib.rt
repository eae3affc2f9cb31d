// Reading one transaction: the answer, and what the lent tables then hold.
#![tactic(auto)]

mod between;
mod cutting;
mod judging;
mod placing;
pub mod reading;
mod settling;
mod storing;
