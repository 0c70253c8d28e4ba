// Groups of tasks and hours, the highest level first, and the plan.
#![tactic(auto)]

mod crew;
pub mod levels;
mod load;
mod parts;
mod plan;
mod rows;
mod search;
mod ship;
pub mod short;
mod split;
mod start;
mod step;
mod take;
mod task_set;
mod walk;
mod weigh;

pub use plan::{length_needed, plan_night};
