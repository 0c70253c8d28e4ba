// Sets of hours.
#![tactic(auto)]

pub mod hours;
pub mod iter;
