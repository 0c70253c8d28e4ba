// What an even plan is, and every theorem about any even plan.
#![tactic(auto)]

pub mod exists;
pub mod grouped;
pub mod theorems;
