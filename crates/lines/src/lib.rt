// The printed lines: hours with their loads, tasks with their amounts, and refusals.
#![tactic(auto)]

mod line;
mod text;

pub use line::{HourLine, RefusedLine, TaskLine, UnevenLine};
pub use text::{Unprinted, plan_text};
